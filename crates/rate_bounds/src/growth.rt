//! How much an error grows over a cell.

ghost use Rattle.std.specs.Prelude.{◌≡◌, ◌*◌, ◌^◌, ◌≤◌, ◌<◌};
ghost use Rattle.rate_bounds.specs.Growths.{GrowsLittle, iota_of, nu_of, phi_of, kappa_of};

use crate::curves::MonthCurves;
use named_numbers::{CELLS_OF_HALF_YEAR, CELLS_OF_TWO_YEARS};

// The growths count units of 2^-40.
const ONE: u128 = 1 << 40;

/// The greatest size of a Bernstein coefficient of the interest.
pub(crate) fn iota(curves: MonthCurves) -> u128
    ensures { result ≡ iota_of curves }
{
    curves.high.unsigned_abs().max(curves.low.unsigned_abs())
}

/// How far the least of them is below 0.
pub(crate) fn nu(curves: MonthCurves) -> u128
    ensures { result ≡ nu_of curves }
{
    curves.low.min(0).unsigned_abs()
}

// 2^40 (5 rho + 6 iota) / 768, rounded up.
fn phi40(curves: MonthCurves, unit: u128) -> u128
    requires { GrowsLittle curves unit }
    ensures value { result ≡ phi_of curves unit }
    ensures most { result * result ≤ 2 ^ 72 }
{
    (ONE * (5 * curves.rho as u128 + 6 * iota(curves))).div_ceil(CELLS_OF_TWO_YEARS * unit)
}

/// The growth of a cell in units of 2^-40: a part for the rates and the interest, and one for interest below 0, each
/// rounded up. The numbers of the month are over `unit`.
pub(crate) fn kappa40(curves: MonthCurves, unit: u128) -> u64
    requires { GrowsLittle curves unit }
    ensures value { result ≡ kappa_of curves unit }
    ensures most { result ≤ 2 ^ 28 }
{
    let phi40 = phi40(curves, unit);
    let by_rates = (9 * (phi40 * phi40)).div_ceil(1 << 44);
    let by_interest = (ONE * nu(curves)).div_ceil(CELLS_OF_HALF_YEAR * unit);
    (by_rates + by_interest) as u64
}
