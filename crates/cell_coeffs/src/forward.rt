//! Kolmogorov's equations of a forward cell, column by column: what flows out of each state.

ghost use Rattle.std.specs.Prelude.{◌≡◌, ℕ, ◌*◌, ◌^◌, ◌<◌, ◌≤◌, pos, unsigned_abs, length, slice_index_or, IsTrue};
ghost use Rattle.linear_system.specs.DegreeLimit.{IsConstant};
ghost use Rattle.linear_system.specs.Setting.{HaveSamePlaces};
ghost use Rattle.linear_system.specs.StandsFor.{StandsFor};
ghost use Rattle.linear_system.specs.StoredSystem.{stored_number, stored_free};
ghost use Rattle.model_specs.specs.Payments.{payment_plan};
ghost use Rattle.model_specs.specs.Stretches.{is_constant_month};
ghost use Rattle.model_specs.specs.Systems.{intensity_at, leaving_at, kolmogorov_system};
ghost use Rattle.model_specs.specs.ValuationRules.{IsAdmissible};
ghost use Rattle.product_cells.specs.EachCell.{forward_cell};
ghost use Rattle.cell_coeffs.specs.Near.{IsStored};
ghost use Rattle.cell_coeffs.specs.Rows.{AddsNear, GrowsLittle, KeepsOthers};
ghost use Rattle.cell_coeffs.specs.ForwardColumns.{HasSmallFlows, HasFlows, KeepsColumns, IsStoredColumn};
ghost use Rattle.cell_coeffs.specs.ForwardColumns.{IsMadeForward};

use crate::lookup::transition_between;
use crate::numbers::numbers_in;
use crate::paid::add;
use crate::write::{put, put_diagonal};
use curve_pieces::Dir;
use linear_system::CellSystem;
use product_model::Product;

// Stores the transition from one state to another, if there is one, and adds what it takes.
fn fill_flow(
    p: &Product,
    month: u32,
    cell: u32,
    from: usize,
    to: usize,
    leaving: &mut [i128; 9],
    out: &mut CellSystem,
)
    requires month { month < p.now.months }
    requires cell { cell < 32 }
    requires from { from < length p.now.states }
    requires to { to < length p.now.states }
    requires small { HasSmallFlows (forward_cell p.now month cell) }
    requires made { IsMadeForward p.now out.old }
    requires few { (m : ℕ) → unsigned_abs (slice_index_or leaving.old m (pos 0)) ≤ 2 ^ 70 }
    ensures leaving { AddsNear 2 (intensity_at (forward_cell p.now month cell) from to) leaving.old leaving.new }
    ensures grows { GrowsLittle leaving.old leaving.new }
    ensures flow { (m : ℕ) → stored_number out.old to from m ≡ pos 0
        → IsStored (intensity_at (forward_cell p.now month cell) from to m) (stored_number out.new to from m) }
    ensures others { KeepsOthers out.old out.new to from }
{
    if let Some(e) = transition_between(p, from, to) {
        let rate = numbers_in(p.rate(e), p.den(), month, cell, Dir::Forward);
        put(out, to, from, &rate);
        add(leaving, &rate);
    }
}

// Stores what flows out of a state, transition by transition, and adds what leaves it.
fn fill_flows(
    p: &Product,
    month: u32,
    cell: u32,
    state: usize,
    leaving: &mut [i128; 9],
    out: &mut CellSystem,
)
    requires month { month < p.now.months }
    requires cell { cell < 32 }
    requires state { state < length p.now.states }
    requires small { HasSmallFlows (forward_cell p.now month cell) }
    requires made { IsMadeForward p.now out.old }
    requires few { (m : ℕ) → unsigned_abs (slice_index_or leaving.old m (pos 0)) ≤ 2 ^ 64 }
    requires none { (j m : ℕ) → stored_number out.old j state m ≡ pos 0 }
    ensures leaving { AddsNear (2 * length p.now.states)
        (leaving_at (forward_cell p.now month cell) state) leaving.old leaving.new }
    ensures flows { HasFlows (forward_cell p.now month cell) state (length p.now.states) out.new }
    ensures columns { KeepsColumns out.old out.new state }
{
    for to in 0..p.graph().states() {
        fill_flow(p, month, cell, state, to, leaving, out);
    }
}

// Stores the column of a state.
fn fill_column(p: &Product, month: u32, cell: u32, state: usize, out: &mut CellSystem)
    requires month { month < p.now.months }
    requires cell { cell < 32 }
    requires state { state < length p.now.states }
    requires small { HasSmallFlows (forward_cell p.now month cell) }
    requires made { IsMadeForward p.now out.old }
    requires none { (j m : ℕ) → stored_number out.old j state m ≡ pos 0 }
    ensures stands { IsStoredColumn (forward_cell p.now month cell) state out.new }
    ensures columns { KeepsColumns out.old out.new state }
{
    let mut leaving = [0; 9];
    fill_flows(p, month, cell, state, &mut leaving, out);
    put_diagonal(out, state, &leaving);
}

/// Makes a system stand for Kolmogorov's equations of a cell, where x counts from the cell's start: each number is at
/// most one unit of 2^-64 off, a number that is exactly 0 is stored as 0, and nothing is free. Takes no memory.
pub fn fill_forward(p: &Product, month: u32, cell: u32, out: &mut CellSystem)
    requires admissible { IsAdmissible p.now }
    requires month { month < p.now.months }
    requires cell { cell < 32 }
    requires made { IsMadeForward p.now out.old }
    ensures stands { StandsFor out.new (kolmogorov_system (forward_cell p.now month cell)) }
    ensures columns { (i : ℕ) → i < length p.now.states
        → IsStoredColumn (forward_cell p.now month cell) i out.new }
    ensures free { (j m : ℕ) → stored_free out.new j m ≡ pos 0 }
    ensures places { HaveSamePlaces out.old out.new }

    // Where nothing varies over the month, no number other than 0 is stored above power 0.
    ensures constant { IsTrue (is_constant_month p.now (payment_plan p.now) month) → IsConstant out.new }
{
    out.clear();
    for state in 0..p.graph().states() {
        fill_column(p, month, cell, state, out);
    }
}
