//! The map of one cell: a step from 0, and one from 1 at each place.

ghost use Rattle.std.specs.Prelude.{◌≡◌, ◌≢◌, ℕ, ◌+◌, ◌*◌, ◌^◌, ◌<◌, ◌≤◌, pos, ◌-ℤ◌, length, unsigned_abs};
ghost use Rattle.std.specs.Prelude.{slice_index_or};
ghost use Rattle.linear_system.specs.StoredSystem.{dim_of};
ghost use Rattle.month_maps.specs.MadeMaps.{CanMake, IsStepFrom, IsAround, HoldsColumns, HoldsFree, unit_number};
ghost use Rattle.month_maps.specs.StoredMap.{interval_at};

use fixed_interval::Interval;
use linear_system::CellSystem;
use std::sync::ledger::Ledger;
use taylor_step::{Steps, Work, step};

// 1, in units of 2^-64.
const ONE: i128 = 1 << 64;

fn unit_number(place: usize, i: usize) -> i128
    ensures { result ≡ unit_number place i }
{
    if i == place { ONE } else { 0 }
}

/// 1 at a place, and 0 elsewhere.
fn write_unit(place: usize, mid: &mut [i128])
    ensures { (i : ℕ) → i < length mid.old → slice_index_or mid.new i (pos 0) ≡ unit_number place i }
{
    for i in 0..mid.len() {
        mid[i] = unit_number(place, i);
    }
}

/// A step from 1 at a place, or from 0 where the place is past the last one.
fn step_from<L: Ledger>(
    sys: &CellSystem,
    place: usize,
    mid: &mut [i128],
    work: &mut Work,
    steps: &mut Steps<L>,
) -> u8
    requires can { CanMake sys.now }
    requires mid { length mid.old ≡ dim_of sys.now }
    requires work { work.old ≡ dim_of sys.now }
    requires count { steps.old + 1 < 2 ^ 63 }
    ensures degree { result ≡ 8 }
    ensures from { IsStepFrom sys.now place mid.new }
    ensures count { steps.new ≡ steps.old + 1 }
    ensures work { work.new ≡ work.old }
{
    let _degree = sys.degree();
    write_unit(place, mid);
    step(sys, mid, work, steps)
}

/// The interval that reaches some units to both sides of a number.
fn around(mid: i128, spare: u8) -> Interval
    requires { unsigned_abs mid ≤ 2 ^ 66 }
    ensures { IsAround spare mid result }
{
    let spare = i128::from(spare);
    Interval {
        lo: mid - spare,
        hi: mid + spare,
    }
}

/// The free numbers: what the step from 0 gave, within its 16 units.
fn write_free(origin: &[i128], free: &mut [Interval])
    requires lengths { length origin.now ≡ length free.old }
    requires small { (row : ℕ) → row < length free.old → unsigned_abs (slice_index_or origin.now row (pos 0)) ≤ 2 ^ 65 }
    ensures { (row : ℕ) → row < length free.old
        → IsAround 16 (slice_index_or origin.now row (pos 0)) (interval_at free.new row) }
{
    for row in 0..free.len() {
        free[row] = around(origin[row], 16);
    }
}

/// A column of the matrix: what the steps from 1 at its place and from 0 differ by, within 16 units each.
fn write_column(origin: &[i128], column: &[i128], col: usize, numbers: &mut [Interval])
    requires few { length origin.now ≤ 12 }
    requires lengths { length column.now ≡ length origin.now }
    requires col { col < length origin.now }
    requires numbers { length numbers.old ≡ length origin.now * length origin.now }
    requires small { (row : ℕ) → row < length origin.now → unsigned_abs (slice_index_or origin.now row (pos 0)) ≤ 2 ^
        65 }
    requires column_small { (row : ℕ) → row < length origin.now
        → unsigned_abs (slice_index_or column.now row (pos 0)) ≤ 2 ^ 65 }
    ensures done { (row : ℕ) → row < length origin.now → IsAround 32
        (slice_index_or column.now row (pos 0) -ℤ slice_index_or origin.now row (pos 0))
        (interval_at numbers.new (row * length origin.now + col)) }
    ensures others { (row other : ℕ) → row < length origin.now → other < length origin.now → other ≢ col
        → interval_at numbers.new (row * length origin.now + other)
        ≡ interval_at numbers.old (row * length origin.now + other) }
{
    let dim = origin.len();
    for row in 0..dim {
        numbers[row * dim + col] = around(column[row] - origin[row], 32);
    }
}

/// All columns, each from a step of its own.
fn write_columns<L: Ledger>(
    sys: &CellSystem,
    origin: &[i128],
    column: &mut [i128],
    work: &mut Work,
    steps: &mut Steps<L>,
    numbers: &mut [Interval],
) -> u8
    requires can { CanMake sys.now }
    requires few { dim_of sys.now ≤ 12 }
    requires origin { length origin.now ≡ dim_of sys.now }
    requires from { IsStepFrom sys.now (dim_of sys.now) origin.now }
    requires column { length column.old ≡ dim_of sys.now }
    requires work { work.old ≡ dim_of sys.now }
    requires count { steps.old + dim_of sys.now < 2 ^ 63 }
    requires numbers { length numbers.old ≡ dim_of sys.now * dim_of sys.now }
    ensures degree { result ≡ 8 }
    ensures columns { HoldsColumns sys.now (dim_of sys.now) numbers.new }
    ensures count { steps.new ≡ steps.old + dim_of sys.now }
    ensures work { work.new ≡ work.old }
{
    let mut degree = 8;
    for col in 0..origin.len() {
        degree = degree.max(step_from(sys, col, column, work, steps));
        write_column(origin, column, col, numbers);
    }
    degree
}

/// The intervals of the map of one cell: a step a column, and one for the free numbers.
pub(crate) fn write_cell<L: Ledger>(
    sys: &CellSystem,
    work: &mut Work,
    steps: &mut Steps<L>,
    numbers: &mut [Interval],
    free: &mut [Interval],
) -> u8
    requires can { CanMake sys.now }
    requires few { dim_of sys.now ≤ 12 }
    requires work { work.old ≡ dim_of sys.now }
    requires count { steps.old + dim_of sys.now + 1 < 2 ^ 63 }
    requires numbers { length numbers.old ≡ dim_of sys.now * dim_of sys.now }
    requires free { length free.old ≡ dim_of sys.now }
    ensures degree { result ≡ 8 }
    ensures columns { HoldsColumns sys.now (dim_of sys.now) numbers.new }
    ensures free { HoldsFree sys.now free.new }
    ensures count { steps.new ≡ steps.old + dim_of sys.now + 1 }
    ensures work { work.new ≡ work.old }
{
    let dim = sys.dim();
    let mut origins = [0; 12];
    let mut columns = [0; 12];
    let origin = &mut origins[..dim];
    let degree = step_from(sys, dim, origin, work, steps);
    write_free(origin, free);
    degree.max(write_columns(sys, origin, &mut columns[..dim], work, steps, numbers))
}
