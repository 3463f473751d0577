//! Ledgers over some cells of a month.

ghost use Rattle.std.specs.Prelude.{◌≡◌, ℕ, ◌*◌, ◌^◌, ◌≤◌};
ghost use Rattle.model_specs.specs.Ledgers as ledgers;
ghost use Rattle.rate_bounds.specs.SecondCells.{SecondFits};

use ledger_bounds::grow;
use named_numbers::{CELL_ROUNDING, PAY_UNIT};

/// A ledger after some cells of a month, each of which adds the same.
pub(crate) fn grow_cells(start: u128, kappa40: u64, add: u128, cells: u32) -> u128
    requires growth { kappa40 ≤ 2 ^ 28 }
    requires add { add ≤ 2 ^ 80 }
    requires fits { (k : ℕ) → k ≤ cells → ledgers.grow_cells kappa40 add start k ≤ 2 ^ 80 }
    ensures { result ≡ ledgers.grow_cells kappa40 add start cells }
{
    let mut ledger = start;
    for _cell in 0..cells {
        ledger = grow(ledger, kappa40, add);
    }
    ledger
}

/// The second radius after some cells of a month, from the first and the second radius before them: each cell adds
/// `2 * pay * w / (1024 * largest)` rounded up and 1024, with the first radius w before the cell.
pub(crate) fn second_grow_cells(
    start: u128,
    radius: u128,
    kappa40: u64,
    pay1024: u128,
    largest: u128,
    cells: u32,
) -> u128
    requires growth { kappa40 ≤ 2 ^ 28 }
    requires pay { pay1024 ≤ 144 * 10 ^ 12 }
    requires some { 1 ≤ largest }
    requires largest { largest ≤ 2 ^ 56 }
    requires fits { SecondFits kappa40 pay1024 largest radius start cells }
    ensures { result ≡ ledgers.second_grow_cells kappa40 pay1024 largest radius start cells }
{
    let mut second = start;
    let mut w = radius;
    for _cell in 0..cells {
        second = grow(
            second,
            kappa40,
            (2 * pay1024 * w).div_ceil(PAY_UNIT * largest) + CELL_ROUNDING,
        );
        w = grow(w, kappa40, CELL_ROUNDING);
    }
    second
}
