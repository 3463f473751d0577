//! Months in which nothing varies.

ghost use Rattle.std.specs.Prelude.{◌≡◌, ◌<◌, length};
ghost use Rattle.model_specs.specs.Stretches.{is_constant_month};
ghost use Rattle.payment_plan.specs.Payments.{plan_of};
ghost use Rattle.product_model.specs.Views.{payments_of};
ghost use Rattle.month_stretches.specs.Parts.{are_constant, rate_in, sojourn_in, sum_in};

use crate::first::{interest_first, rate_first, sojourn_first, sum_first};
use payment_plan::Which;
use product_model::Product;

fn rates_are_constant(product: &Product, month: u32) -> bool
    requires { month < product.now.months }
    ensures { result ≡ are_constant (length product.now.transitions) (rate_in product.now month) }
{
    for transition in 0..product.transitions() {
        if !rate_first(product, month, transition).alone {
            return false;
        }
    }
    true
}

fn sojourns_are_constant(product: &Product, which: Which, month: u32) -> bool
    requires { month < product.now.months }
    ensures { result ≡ are_constant (length product.now.states)
        (sojourn_in (plan_of which (payments_of product.now)) month) }
{
    for state in 0..product.graph().states() {
        if !sojourn_first(product, which, month, state).alone {
            return false;
        }
    }
    true
}

fn sums_are_constant(product: &Product, which: Which, month: u32) -> bool
    requires { month < product.now.months }
    ensures { result ≡ are_constant (length product.now.transitions)
        (sum_in (plan_of which (payments_of product.now)) month) }
{
    for transition in 0..product.transitions() {
        if !sum_first(product, which, month, transition).alone {
            return false;
        }
    }
    true
}

/// Whether nothing varies over a month: the pieces of all curves, and the steps of all sojourn rates and transition
/// sums of the plan, have only their first coefficient there. Takes no memory.
pub fn is_constant_month(product: &Product, which: Which, month: u32) -> bool
    requires { month < product.now.months }
    ensures { result ≡ is_constant_month product.now (plan_of which (payments_of product.now)) month }
{
    interest_first(product, month).alone
        & rates_are_constant(product, month)
        & sojourns_are_constant(product, which, month)
        & sums_are_constant(product, which, month)
}
