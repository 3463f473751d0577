//! The system that Kolmogorov's equations are filled into.

ghost use Rattle.std.specs.Prelude.{◌≡◌, IfOk, map};
ghost use Rattle.product_model.specs.Views.{graph_of};
ghost use Rattle.cell_coeffs.specs.ForwardColumns.{IsMadeForward};

use linear_system::CellSystem;
use product_model::{Product, pairs_agree};
use std::alloc::{AllocError, Global};

// The greatest power of x in Kolmogorov's equations.
const DEGREE: usize = 5;

// For each transition, in their order, the state that it leads to and the state that it leads from.
fn flows_of(alloc: Global, p: &Product) -> Result<Vec<(usize, usize)>, AllocError>
    ensures { IfOk result (λ flows. flows.items ≡ map (λ edge. (edge.1, edge.0)) (graph_of p.now).edges) }
{
    let graph = p.graph();
    let mut flows = Vec::new(alloc);
    for transition in 0..graph.transitions() {
        let (from, to) = graph.pair(transition);
        flows.push((to, from))?;
    }
    Ok(flows)
}

/// A system with the places that Kolmogorov's equations take, and all numbers 0.
pub fn forward_system_for(alloc: Global, p: &Product) -> Result<CellSystem, AllocError>
    ensures { IfOk result (IsMadeForward p.now) }
{
    pairs_agree();
    let flows = flows_of(alloc, p)?;
    let system = CellSystem::new(alloc, p.graph().states(), DEGREE, &flows)?;
    Ok(system)
}
