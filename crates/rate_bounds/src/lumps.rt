//! The lumps of a date.

ghost use Rattle.std.specs.Prelude.{◌≡◌, ◌^◌, ◌≤◌, length, map, unsigned_abs};
ghost use Rattle.whole_laws.specs.Whole.{greatest_natural};
ghost use Rattle.model_specs.specs.Payments.{lumps_at};
ghost use Rattle.model_specs.specs.Ledgers as ledgers;
ghost use Rattle.rate_bounds.specs.MonthPay.{plan_named};

use payment_plan::Which;
use product_model::{Product, plans_agree};

/// The lumps of a date, each with its state.
pub(crate) fn lumps_of(product: &Product, which: Which, date: u32) -> &[(usize, i64)]
    requires { date ≤ product.now.months }
    ensures { result.now ≡ lumps_at (length product.now.states) (plan_named which product.now) date }
{
    plans_agree();
    product.plan().lumps_at(which, date)
}

/// The greatest size of some lumps, in minor units.
pub(crate) fn greatest_of(lumps: &[(usize, i64)]) -> u64
    ensures { result ≡ greatest_natural (map (λ l. unsigned_abs l.1) lumps.now) }
{
    let mut most = 0;
    for (_, amount) in lumps {
        most = amount.unsigned_abs().max(most);
    }
    most
}

/// The greatest size of the lumps of a date, in minor units.
pub(crate) fn greatest_lump(product: &Product, which: Which, date: u32) -> u64
    requires { date ≤ product.now.months }
    ensures { result ≡ ledgers.greatest_lump product.now (plan_named which product.now) date }
{
    greatest_of(lumps_of(product, which, date))
}

/// What the lumps of a date add to the second radius: where there are any, `2 l w / largest` rounded up and 4, with the
/// greatest size l of them and the first radius w.
pub(crate) fn date_adds(lumps: &[(usize, i64)], w: u128, largest: u128) -> u128
    requires radius { w ≤ 2 ^ 40 }
    requires some { 1 ≤ largest }
    ensures { result
        ≡ ledgers.date_adds lumps.now (greatest_natural (map (λ l. unsigned_abs l.1) lumps.now)) w largest }
{
    if lumps.is_empty() {
        0
    } else {
        (2 * u128::from(greatest_of(lumps)) * w).div_ceil(largest) + 4
    }
}
