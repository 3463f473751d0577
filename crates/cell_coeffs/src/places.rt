//! The system that a job is filled into.

ghost use Rattle.std.specs.Prelude.{◌≡◌, IfOk};
ghost use Rattle.product_model.specs.Views.{graph_of};
ghost use Rattle.cell_coeffs.specs.Jobs.{degree_of};
ghost use Rattle.cell_coeffs.specs.Rows.{IsMadeForFirst};

use crate::job::Job;
use linear_system::CellSystem;
use product_model::{Product, pairs_agree};
use std::alloc::{AllocError, Global};

// The pairs of states of the transitions, in their order.
fn links_of(alloc: Global, p: &Product) -> Result<Vec<(usize, usize)>, AllocError>
    ensures { IfOk result (λ links. links.items ≡ (graph_of p.now).edges) }
{
    let graph = p.graph();
    let mut links = Vec::new(alloc);
    for transition in 0..graph.transitions() {
        links.push(graph.pair(transition))?;
    }
    Ok(links)
}

// The greatest power of x in the equations of a job.
fn degree_of(job: Job) -> usize
    ensures { result ≡ degree_of job }
{
    match job {
        Job::First(_) => 8,
    }
}

/// A system with the places that the equations of a job take, and all numbers 0.
pub fn system_for(alloc: Global, p: &Product, job: Job) -> Result<CellSystem, AllocError>
    ensures { IfOk result (IsMadeForFirst p.now) }
{
    pairs_agree();
    let links = links_of(alloc, p)?;
    let system = CellSystem::new(alloc, p.graph().states(), degree_of(job), &links)?;
    Ok(system)
}
