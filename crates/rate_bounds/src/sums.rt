//! The sizes of transition sums.

ghost use Rattle.std.specs.Prelude.{◌≡◌, ◌*◌, ◌^◌, ◌<◌, ◌≤◌, length};
ghost use Rattle.model_specs.specs.Payments.{payment_plan};
ghost use Rattle.model_specs.specs.Growth as growth;
ghost use Rattle.rate_bounds.specs.MonthPay.{plan_named};
ghost use Rattle.rate_bounds.specs.LedgerSteps.{sum_size_of, greatest_sum_size};

use crate::pay::sum_load;
use payment_plan::Which;
use product_model::Product;

// The size of a transition's sum: its greatest load over the months of the term, in minor units.
fn sum_size(product: &Product, transition: usize) -> u128
    requires { transition < length product.now.transitions }
    ensures value { result ≡ sum_size_of product.now (payment_plan product.now) transition }
    ensures most { result ≤ 9 * 10 ^ 12 }
{
    let mut most = 0;
    for month in 0..product.months() {
        most = sum_load(product, Which::Benefits, transition, month).max(most);
    }
    most
}

// The greatest of these.
fn greatest_sum_size(product: &Product) -> u128
    ensures value { result ≡ greatest_sum_size product.now (payment_plan product.now) }
    ensures most { result ≤ 9 * 10 ^ 12 }
{
    let mut most = 0;
    for transition in 0..product.transitions() {
        most = sum_size(product, transition).max(most);
    }
    most
}

/// The greatest size of a plan's transition sums, in minor units. The pattern has none.
pub(crate) fn greatest_sum(product: &Product, which: Which) -> u128
    ensures value { result ≡ growth.greatest_sum product.now (plan_named which product.now) }
    ensures most { result ≤ 9 * 10 ^ 12 }
{
    match which {
        Which::Benefits => greatest_sum_size(product),
        Which::Pattern => 0,
    }
}
