//! The transitions of the tree, whose intensities are drawn.
ghost use Rattle.std.specs.Prelude.{◌≡◌, ◌≤◌, ◌*◌, map, IfOk, OnOk};
ghost use Rattle.toml.specs.View.{view};
ghost use Rattle.workload_gen.specs.Draws.{state_after};
ghost use Rattle.workload_gen.specs.Tree.{array_of, whole, years, draws_of_piece};
ghost use Rattle.workload_gen.specs.Tree.{coefficients, rate, death_sum, transition_of, transitions};

use crate::draws::Draws;
use crate::tables::{piece, put, text};
use crate::transition::Transition;
use std::alloc::{AllocError, Global};
use toml::value::Array;
use toml::{Table, Value};

/// The years of the term.
const YEARS: u32 = 65;

// The four coefficients of the piece for a year.
fn coefficients(transition: Transition, draws: &mut Draws, year: u32) -> [u32; 4]
    requires { year ≤ 64 }
    ensures drawn { map whole result ≡ coefficients transition year draws.old.state }
    ensures state { draws.new.state ≡ state_after draws.old.state draws_of_piece }
{
    let level = transition.level(year);
    let constant = level + draws.draw(transition.spread());
    let linear = draws.draw(1_000_000);
    let square = draws.draw(500_000);
    let cube = draws.draw(100_000);
    [constant, linear, square, cube]
}

// The pieces of a transition, one for each year.
fn rate(alloc: Global, transition: Transition, draws: &mut Draws) -> Result<Value, AllocError>
    ensures pieces { IfOk result (λ value. view value ≡ array_of (rate transition draws.old.state)) }
    ensures state { OnOk result (draws.new.state ≡ state_after draws.old.state (years * draws_of_piece)) }
{
    let mut pieces = Array::new(alloc);
    for year in 0..YEARS {
        let c = coefficients(transition, draws, year);
        pieces.push(piece(alloc, 12 * year, &c)?)?;
    }
    Ok(Value::from(pieces))
}

// The sum that both deaths pay.
fn death_sum(alloc: Global) -> Result<Value, AllocError>
    ensures { IfOk result (λ value. view value ≡ death_sum) }
{
    let mut step = Table::new(alloc);
    put(alloc, &mut step, "from", Value::from(0u32))?;
    put(alloc, &mut step, "amount", Value::from(10_000_000u32))?;
    let mut steps = Array::new(alloc);
    steps.push(Value::from(step))?;
    Ok(Value::from(steps))
}

// A transition.
fn transition(alloc: Global, transition: Transition, draws: &mut Draws) -> Result<Value, AllocError>
    ensures value { IfOk result (λ value. view value ≡ transition_of transition draws.old.state) }
    ensures state { OnOk result (draws.new.state ≡ state_after draws.old.state (years * draws_of_piece)) }
{
    let mut table = Table::new(alloc);
    put(alloc, &mut table, "from", text(alloc, transition.from())?)?;
    put(alloc, &mut table, "to", text(alloc, transition.to())?)?;
    put(alloc, &mut table, "rate", rate(alloc, transition, draws)?)?;
    if transition.is_death() {
        put(alloc, &mut table, "sum", death_sum(alloc)?)?;
    }
    Ok(Value::from(table))
}

/// The transitions of the product.
pub fn transitions(alloc: Global, draws: &mut Draws) -> Result<Value, AllocError>
    ensures { IfOk result (λ value. view value ≡ array_of (transitions draws.old.state)) }
{
    let mut items = Array::new(alloc);
    items.push(transition(alloc, Transition::Disability, draws)?)?;
    items.push(transition(alloc, Transition::Recovery, draws)?)?;
    items.push(transition(alloc, Transition::DeathOfActive, draws)?)?;
    items.push(transition(alloc, Transition::DeathOfDisabled, draws)?)?;
    Ok(Value::from(items))
}
