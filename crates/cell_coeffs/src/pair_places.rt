//! The system that the equations of both moments are filled into.

ghost use Rattle.std.specs.Prelude.{◌<◌, ◌≤◌, IfOk};
ghost use Rattle.product_model.specs.PartLaws.{PairsAgree};
ghost use Rattle.cell_coeffs.specs.PairPlaces.{KeepsLinks, HasPairLinks, HasOwnLinks, HasMomentLinks};
ghost use Rattle.cell_coeffs.specs.PairRows.{IsMadeForMoments};

use linear_system::CellSystem;
use product_model::{Product, pairs_agree};
use std::alloc::{AllocError, Global};

// The greatest power of x in the equations of both moments.
const DEGREE: usize = 11;

// Adds the links of a transition.
fn push_pair(
    links: &mut Vec<(usize, usize)>,
    states: usize,
    from: usize,
    to: usize,
) -> Result<(), AllocError>
    requires from { from < states }
    requires to { to < states }
    requires few { states ≤ 12 }
    ensures has { IfOk result (λ _. HasPairLinks states from to links.new.items) }
    ensures keeps { IfOk result (λ _. KeepsLinks states links.old.items links.new.items) }
{
    links.push((from, to))?;
    links.push((states + from, states + to))?;
    links.push((states + from, to))?;
    Ok(())
}

// Adds the link of each state from its first moment to its second.
fn push_own(links: &mut Vec<(usize, usize)>, states: usize) -> Result<(), AllocError>
    requires few { states ≤ 12 }
    ensures has { IfOk result (λ _. HasOwnLinks states states links.new.items) }
    ensures keeps { IfOk result (λ _. KeepsLinks states links.old.items links.new.items) }
{
    for state in 0..states {
        links.push((states + state, state))?;
    }
    Ok(())
}

// The links of a product.
fn moment_links(alloc: Global, p: &Product) -> Result<Vec<(usize, usize)>, AllocError>
    requires pairs { PairsAgree }
    ensures { IfOk result (λ links. HasMomentLinks p.now links.items) }
{
    let graph = p.graph();
    let states = graph.states();
    let mut links = Vec::new(alloc);
    for transition in 0..graph.transitions() {
        let (from, to) = graph.pair(transition);
        push_pair(&mut links, states, from, to)?;
    }
    push_own(&mut links, states)?;
    Ok(links)
}

/// A system with the places that the equations of both moments take, and all numbers 0: a row for the first moment of
/// each state, and behind them a row for each second moment.
pub fn moments_system_for(alloc: Global, p: &Product) -> Result<CellSystem, AllocError>
    ensures { IfOk result (IsMadeForMoments p.now) }
{
    pairs_agree();
    let links = moment_links(alloc, p)?;
    let system = CellSystem::new(alloc, 2 * p.graph().states(), DEGREE, &links)?;
    Ok(system)
}
