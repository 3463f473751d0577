//! The rows of the tables, date by date.

ghost use Rattle.std.specs.Prelude.{◌≡◌, ℕ, ◌+◌, ◌-◌, ◌*◌, ◌/◌, ◌<◌, ◌≤◌, length};
ghost use Rattle.named_numbers.specs.Numbers.{least_degree, highest_degree};
ghost use Rattle.thiele_backward.specs.Dates.{KeepsRowsFrom};
ghost use Rattle.moment_equations.specs.Dates.{HoldsAt, HasDate, AreNearFrom};
ghost use Rattle.moment_equations.specs.NearMoments.{AreNear};

use crate::ends::{Middle, Moment, ends_of};
use fixed_interval::Printed;
use payment_plan::Which;
use rate_bounds::Admitted;

// The ends of a kind in a state.
fn ends_in(kind: Moment, adm: &Admitted, date: u32, mid: &[i128], state: usize) -> Printed
    requires date { date ≤ adm.now.months }
    requires state { state < length adm.now.states }
    requires mid { length mid.now ≡ length adm.now.states + length adm.now.states }
    requires near { AreNear adm.now highest_degree (adm.now.months - date) mid.now }
    ensures { (degree : ℕ) → least_degree ≤ degree → AreNearFrom adm.now degree date mid.now
        → HoldsAt kind adm.now degree date state result }
{
    let states = adm.product().graph().states();
    let middle = Middle {
        first: mid[state],
        second: mid[states + state],
        radius: adm.radius(date),
        radius_second: adm.radius_second(date),
        g: adm.scale(Which::Benefits),
    };
    ends_of(kind, middle)
}

// Writes the numbers of a kind at a date, in the table's row of this number.
fn write_date(
    kind: Moment,
    cells: &mut [Printed],
    row: usize,
    adm: &Admitted,
    date: u32,
    mid: &[i128],
)
    requires date { date ≤ adm.now.months }
    requires mid { length mid.now ≡ length adm.now.states + length adm.now.states }
    requires near { AreNear adm.now highest_degree (adm.now.months - date) mid.now }
    requires room { (row + 1) * length adm.now.states ≤ length cells.old }
    ensures written { (degree : ℕ) → least_degree ≤ degree → AreNearFrom adm.now degree date mid.now
        → HasDate kind adm.now degree date row cells.new }
    ensures kept { KeepsRowsFrom (row + 1) (length adm.now.states) cells.old cells.new }
{
    let states = adm.product().graph().states();
    for state in 0..states {
        cells[row * states + state] = ends_in(kind, adm, date, mid, state);
    }
}

// Writes the numbers of a kind at a date, if the table has it.
pub(crate) fn keep_date(
    kind: Moment,
    cells: &mut [Printed],
    every: u32,
    adm: &Admitted,
    date: u32,
    mid: &[i128],
)
    requires every { 0 < every }
    requires date { date ≤ adm.now.months }
    requires mid { length mid.now ≡ length adm.now.states + length adm.now.states }
    requires near { AreNear adm.now highest_degree (adm.now.months - date) mid.now }
    requires room { (date / every + 1) * length adm.now.states ≤ length cells.old }
    ensures written { (degree row : ℕ) → least_degree ≤ degree → row * every ≡ date
        → AreNearFrom adm.now degree date mid.now → HasDate kind adm.now degree date row cells.new }
    ensures kept { KeepsRowsFrom (date / every + 1) (length adm.now.states) cells.old cells.new }
{
    if date % every == 0 {
        write_date(kind, cells, (date / every) as usize, adm, date, mid);
    }
}
