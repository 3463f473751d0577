//! One row of second moments: what a state pays and loses in a cell, and what its first moments give it.

ghost use Rattle.std.specs.Prelude.{◌≡◌, ◌≢◌, IfSome, IsNone, None, ℕ, ◌+◌, ◌*◌, ◌^◌, ◌<◌, ◌≤◌, pos, unsigned_abs};
ghost use Rattle.std.specs.Prelude.{length, slice_index_or};
ghost use Rattle.frac_laws.specs.Fraction.{whole, ◌*ℚ◌};
ghost use Rattle.frac_laws.specs.Sums.{sum_to};
ghost use Rattle.model_specs.specs.Cells.{transition_between};
ghost use Rattle.model_specs.specs.Systems.{interest_at, intensity_at, leaving_at, first_payment_at};
ghost use Rattle.model_specs.specs.Systems.{second_payment_at};
ghost use Rattle.linear_system.specs.StoredSystem.{stored_number};
ghost use Rattle.cell_bounds.specs.ScaledSystems.{scaling};
ghost use Rattle.cell_coeffs.specs.Cut.{IsStoredCut};
ghost use Rattle.cell_coeffs.specs.Near.{IsNear, IsStored};
ghost use Rattle.cell_coeffs.specs.PairRows.{IsSmallPair, IsMadeForMoments, KeepsOtherColumns, HasSecondLinks};
ghost use Rattle.cell_coeffs.specs.PairRows.{IsReadLink, IsStoredSecondRow};
ghost use Rattle.cell_coeffs.specs.Rows.{cell_at, AddsNear, AddsNearTo, GrowsLittle, IsSmallCell};
ghost use Rattle.cell_coeffs.specs.StoredRows.{KeepsRows};

use crate::lookup::transition_between;
use crate::numbers::{curve_numbers, sojourn_numbers, sum_numbers};
use crate::paid::{add, paid_all};
use crate::pair_write::{put_second_free, put_twice};
use crate::row::Place;
use crate::twice::{add_twice, paid_twice_all, zeros};
use crate::write::{put, put_diagonal};
use linear_system::CellSystem;
use product_model::Product;

// The numbers of a transition in a cell: its intensity in units of 2^-70, and its sum, divided by 2^g, in units of
// 2^-64.
#[derive(Clone, Copy)]
struct LinkNumbers {
    rate: [i128; 9],
    sum: [i128; 9],
}

// The numbers of the transition from one state to another, if there is one.
fn link_numbers(p: &Product, at: Place, from: usize, to: usize) -> Option<LinkNumbers>
    requires from { from < length p.now.states }
    requires to { to < length p.now.states }
    requires month { at.month < p.now.months }
    requires cell { at.cell < 32 }
    requires scale { at.g ≤ 56 }
    requires small { IsSmallCell (cell_at p.now at.which at.month at.cell) (scaling at.g) }
    ensures some { IfSome result (λ link. IsReadLink (cell_at p.now at.which at.month at.cell) (scaling at.g) from to
        link.rate link.sum) }
    ensures found { IfSome result (λ _. transition_between p.now from to ≢ None) }
    ensures none { IsNone result → transition_between p.now from to ≡ None }
{
    let e = transition_between(p, from, to)?;
    let rate = curve_numbers(p.rate(e), p.den(), at.month, at.cell);
    let step = p.plan().sum_at(at.which, e, at.month);
    let sum = sum_numbers(&step, at.g, at.month, at.cell);
    Some(LinkNumbers { rate, sum })
}

// Stores the transition from one state to another, if there is one, in the row of a second moment, and adds what it
// takes and pays twice over.
fn fill_second_link(
    p: &Product,
    at: Place,
    from: usize,
    to: usize,
    leaving: &mut [i128; 9],
    free: &mut [i128; 12],
    out: &mut CellSystem,
)
    requires from { from < length p.now.states }
    requires to { to < length p.now.states }
    requires month { at.month < p.now.months }
    requires cell { at.cell < 32 }
    requires scale { at.g ≤ 56 }
    requires small { IsSmallPair (cell_at p.now at.which at.month at.cell) (scaling at.g) }
    requires made { IsMadeForMoments p.now out.old }
    requires few_leaving { (m : ℕ) → unsigned_abs (slice_index_or leaving.old m (pos 0)) ≤ 2 ^ 70 }
    requires few_free { (m : ℕ) → unsigned_abs (slice_index_or free.old m (pos 0)) ≤ 2 ^ 70 }
    ensures leaving { AddsNear 2 (intensity_at (cell_at p.now at.which at.month at.cell) from to) leaving.old
        leaving.new }
    ensures free { AddsNearTo 12 9 (λ m. scaling at.g *ℚ scaling at.g
        *ℚ second_payment_at (cell_at p.now at.which at.month at.cell) from to m) free.old free.new }
    ensures leaving_grows { GrowsLittle leaving.old leaving.new }
    ensures free_grows { GrowsLittle free.old free.new }
    ensures link { (m : ℕ)
        → stored_number out.old (length p.now.states + from) (length p.now.states + to) m ≡ pos 0
        → IsStored (intensity_at (cell_at p.now at.which at.month at.cell) from to m)
        (stored_number out.new (length p.now.states + from) (length p.now.states + to) m) }
    ensures coupling { (m : ℕ) → stored_number out.old (length p.now.states + from) to m ≡ pos 0
        → IsStoredCut (scaling at.g
        *ℚ (whole (pos 2) *ℚ first_payment_at (cell_at p.now at.which at.month at.cell) from to m))
        (stored_number out.new (length p.now.states + from) to m) }
    ensures others { KeepsOtherColumns out.old out.new (length p.now.states + from) (length p.now.states + to) to }
{
    let states = p.graph().states();
    if let Some(link) = link_numbers(p, at, from, to) {
        let paid = paid_all(&link.rate, &link.sum);
        put(out, states + from, states + to, &link.rate);
        put_twice(out, states + from, to, &paid);
        add(leaving, &link.rate);
        add_twice(free, &paid_twice_all(&paid, &link.sum));
    }
}

// Adds what leaves a state and what is paid in it twice over, transition by transition.
fn fill_second_links(
    p: &Product,
    at: Place,
    state: usize,
    leaving: &mut [i128; 9],
    free: &mut [i128; 12],
    out: &mut CellSystem,
)
    requires state { state < length p.now.states }
    requires month { at.month < p.now.months }
    requires cell { at.cell < 32 }
    requires scale { at.g ≤ 56 }
    requires small { IsSmallPair (cell_at p.now at.which at.month at.cell) (scaling at.g) }
    requires made { IsMadeForMoments p.now out.old }
    requires few_leaving { (m : ℕ) → unsigned_abs (slice_index_or leaving.old m (pos 0)) ≤ 2 ^ 65 }
    requires few_free { (m : ℕ) → unsigned_abs (slice_index_or free.old m (pos 0)) ≤ 2 ^ 65 }
    requires none { (c m : ℕ) → stored_number out.old (length p.now.states + state) c m ≡ pos 0 }
    ensures leaving { AddsNear (2 * length p.now.states)
        (leaving_at (cell_at p.now at.which at.month at.cell) state) leaving.old leaving.new }
    ensures free { AddsNearTo 12 (9 * length p.now.states) (λ m. scaling at.g *ℚ scaling at.g
        *ℚ sum_to (length p.now.states) (λ j. second_payment_at (cell_at p.now at.which at.month at.cell) state j m))
        free.old free.new }
    ensures links { HasSecondLinks (cell_at p.now at.which at.month at.cell) (scaling at.g) state
        (length p.now.states) out.new }
    ensures rows { KeepsRows out.old out.new (length p.now.states + state) }
{
    for to in 0..p.graph().states() {
        fill_second_link(p, at, state, to, leaving, free, out);
    }
}

// Stores the row of a state's second moment.
pub(crate) fn fill_second_row(
    p: &Product,
    at: Place,
    state: usize,
    interest: &[i128; 9],
    out: &mut CellSystem,
)
    requires state { state < length p.now.states }
    requires month { at.month < p.now.months }
    requires cell { at.cell < 32 }
    requires scale { at.g ≤ 56 }
    requires small { IsSmallPair (cell_at p.now at.which at.month at.cell) (scaling at.g) }
    requires made { IsMadeForMoments p.now out.old }
    requires interest { (m : ℕ) → IsNear 2 (interest_at (cell_at p.now at.which at.month at.cell) m)
        (slice_index_or interest.now m (pos 0)) }
    requires few { (m : ℕ) → unsigned_abs (slice_index_or interest.now m (pos 0)) ≤ 2 ^ 64 }
    requires none { (c m : ℕ) → stored_number out.old (length p.now.states + state) c m ≡ pos 0 }
    ensures stands { IsStoredSecondRow (cell_at p.now at.which at.month at.cell) (scaling at.g) state out.new }
    ensures rows { KeepsRows out.old out.new (length p.now.states + state) }
{
    let row = p.graph().states() + state;
    let step = p.plan().sojourn_at(at.which, state, at.month);
    let sojourn = sojourn_numbers(&step, at.g, at.month, at.cell);
    let mut leaving = *interest;
    add(&mut leaving, interest);
    let mut free = zeros();
    fill_second_links(p, at, state, &mut leaving, &mut free, out);
    put_twice(out, row, state, &sojourn);
    put_diagonal(out, row, &leaving);
    put_second_free(out, row, &free);
}
