//! One row: what a state pays and loses in a cell.

ghost use Rattle.std.specs.Prelude.{◌≡◌, ℕ, ◌*◌, ◌^◌, ◌<◌, ◌≤◌, pos, unsigned_abs, length, slice_index_or};
ghost use Rattle.frac_laws.specs.Fraction.{◌*ℚ◌};
ghost use Rattle.model_specs.specs.Systems.{interest_at, intensity_at, leaving_at, first_payment_at};
ghost use Rattle.linear_system.specs.StoredSystem.{stored_number};
ghost use Rattle.cell_bounds.specs.ScaledSystems.{scaling};
ghost use Rattle.cell_coeffs.specs.Near.{IsNear, IsStored};
ghost use Rattle.cell_coeffs.specs.Rows.{cell_at, IsSmallCell, AddsNear, GrowsLittle, KeepsOthers, HasFirstPlaces};
ghost use Rattle.cell_coeffs.specs.StoredRows.{HasLinks, KeepsRows, IsStoredRow};
ghost use Rattle.frac_laws.specs.Sums.{sum_to};

use crate::lookup::transition_between;
use crate::numbers::{curve_numbers, sojourn_numbers, sum_numbers};
use crate::paid::{add, paid_all};
use crate::write::{put, put_diagonal, put_free};
use linear_system::CellSystem;
use payment_plan::Which;
use product_model::Product;

// Which equations are meant: of which plan, divided by 2^g, and in which cell of which month.
#[derive(Clone, Copy)]
pub(crate) struct Place {
    pub(crate) which: Which,
    pub(crate) g: u32,
    pub(crate) month: u32,
    pub(crate) cell: u32,
}

// Stores the transition from one state to another, if there is one, and adds what it takes and pays.
fn fill_link(
    p: &Product,
    at: Place,
    from: usize,
    to: usize,
    leaving: &mut [i128; 9],
    free: &mut [i128; 9],
    out: &mut CellSystem,
)
    requires from { from < length p.now.states }
    requires to { to < length p.now.states }
    requires month { at.month < p.now.months }
    requires cell { at.cell < 32 }
    requires scale { at.g ≤ 56 }
    requires small { IsSmallCell (cell_at p.now at.which at.month at.cell) (scaling at.g) }
    requires made { HasFirstPlaces p.now out.old }
    requires few_leaving { (m : ℕ) → unsigned_abs (slice_index_or leaving.old m (pos 0)) ≤ 2 ^ 70 }
    requires few_free { (m : ℕ) → unsigned_abs (slice_index_or free.old m (pos 0)) ≤ 2 ^ 70 }
    ensures leaving { AddsNear 2 (intensity_at (cell_at p.now at.which at.month at.cell) from to) leaving.old
        leaving.new }
    ensures free { AddsNear 5 (λ m. scaling at.g *ℚ first_payment_at (cell_at p.now at.which at.month at.cell) from
        to m)
        free.old free.new }
    ensures leaving_grows { GrowsLittle leaving.old leaving.new }
    ensures free_grows { GrowsLittle free.old free.new }
    ensures link { (m : ℕ) → stored_number out.old from to m ≡ pos 0
        → IsStored (intensity_at (cell_at p.now at.which at.month at.cell) from to m)
        (stored_number out.new from to m) }
    ensures others { KeepsOthers out.old out.new from to }
{
    if let Some(e) = transition_between(p, from, to) {
        let rate = curve_numbers(p.rate(e), p.den(), at.month, at.cell);
        let step = p.plan().sum_at(at.which, e, at.month);
        let sum = sum_numbers(&step, at.g, at.month, at.cell);
        put(out, from, to, &rate);
        add(leaving, &rate);
        add(free, &paid_all(&rate, &sum));
    }
}

// Adds what leaves a state and what is paid in it, transition by transition.
fn fill_links(
    p: &Product,
    at: Place,
    state: usize,
    leaving: &mut [i128; 9],
    free: &mut [i128; 9],
    out: &mut CellSystem,
)
    requires state { state < length p.now.states }
    requires month { at.month < p.now.months }
    requires cell { at.cell < 32 }
    requires scale { at.g ≤ 56 }
    requires small { IsSmallCell (cell_at p.now at.which at.month at.cell) (scaling at.g) }
    requires made { HasFirstPlaces p.now out.old }
    requires few_leaving { (m : ℕ) → unsigned_abs (slice_index_or leaving.old m (pos 0)) ≤ 2 ^ 64 }
    requires few_free { (m : ℕ) → unsigned_abs (slice_index_or free.old m (pos 0)) ≤ 2 ^ 64 }
    requires none { (c m : ℕ) → stored_number out.old state c m ≡ pos 0 }
    ensures leaving { AddsNear (2 * length p.now.states)
        (leaving_at (cell_at p.now at.which at.month at.cell) state) leaving.old leaving.new }
    ensures free { AddsNear (5 * length p.now.states) (λ m. scaling at.g *ℚ sum_to (length p.now.states)
        (λ j. first_payment_at (cell_at p.now at.which at.month at.cell) state j m)) free.old free.new }
    ensures links { HasLinks (cell_at p.now at.which at.month at.cell) state (length p.now.states) out.new }
    ensures rows { KeepsRows out.old out.new state }
{
    for to in 0..p.graph().states() {
        fill_link(p, at, state, to, leaving, free, out);
    }
}

// Stores the row of a state.
pub(crate) fn fill_row(
    p: &Product,
    at: Place,
    state: usize,
    interest: &[i128; 9],
    out: &mut CellSystem,
)
    requires state { state < length p.now.states }
    requires month { at.month < p.now.months }
    requires cell { at.cell < 32 }
    requires scale { at.g ≤ 56 }
    requires small { IsSmallCell (cell_at p.now at.which at.month at.cell) (scaling at.g) }
    requires made { HasFirstPlaces p.now out.old }
    requires interest { (m : ℕ) → IsNear 2 (interest_at (cell_at p.now at.which at.month at.cell) m)
        (slice_index_or interest.now m (pos 0)) }
    requires few { (m : ℕ) → unsigned_abs (slice_index_or interest.now m (pos 0)) ≤ 2 ^ 64 }
    requires none { (c m : ℕ) → stored_number out.old state c m ≡ pos 0 }
    ensures stands { IsStoredRow (cell_at p.now at.which at.month at.cell) (scaling at.g) state out.new }
    ensures rows { KeepsRows out.old out.new state }
{
    let step = p.plan().sojourn_at(at.which, state, at.month);
    let mut free = sojourn_numbers(&step, at.g, at.month, at.cell);
    let mut leaving = *interest;
    fill_links(p, at, state, &mut leaving, &mut free, out);
    put_diagonal(out, state, &leaving);
    put_free(out, state, &free);
}
