//! Months that go on with the stretch of the month before.

ghost use Rattle.std.specs.Prelude.{◌≡◌, suc, ◌<◌, length};
ghost use Rattle.model_specs.specs.Stretches.{continues_stretch, keeps_values};
ghost use Rattle.payment_plan.specs.Payments.{plan_of};
ghost use Rattle.product_model.specs.Views.{payments_of};
ghost use Rattle.month_stretches.specs.Parts.{are_same, rate_in, sojourn_in, sum_in};

use crate::constant::is_constant_month;
use crate::first::{interest_first, is_same, rate_first, sojourn_first, sum_first};
use payment_plan::Which;
use product_model::Product;

fn rates_are_same(product: &Product, month: u32) -> bool
    requires { suc month < product.now.months }
    ensures { result ≡ are_same (length product.now.transitions) (rate_in product.now month)
        (rate_in product.now (suc month)) }
{
    for transition in 0..product.transitions() {
        let before = rate_first(product, month, transition);
        if !is_same(before, rate_first(product, month + 1, transition)) {
            return false;
        }
    }
    true
}

fn sojourns_are_same(product: &Product, which: Which, month: u32) -> bool
    requires { suc month < product.now.months }
    ensures { let plan = plan_of which (payments_of product.now) in
        result ≡ are_same (length product.now.states) (sojourn_in plan month) (sojourn_in plan (suc month)) }
{
    for state in 0..product.graph().states() {
        let before = sojourn_first(product, which, month, state);
        if !is_same(before, sojourn_first(product, which, month + 1, state)) {
            return false;
        }
    }
    true
}

fn sums_are_same(product: &Product, which: Which, month: u32) -> bool
    requires { suc month < product.now.months }
    ensures { let plan = plan_of which (payments_of product.now) in
        result ≡ are_same (length product.now.transitions) (sum_in plan month) (sum_in plan (suc month)) }
{
    for transition in 0..product.transitions() {
        let before = sum_first(product, which, month, transition);
        if !is_same(before, sum_first(product, which, month + 1, transition)) {
            return false;
        }
    }
    true
}

// Whether each curve, sojourn rate and sum begins a month and the next one with the same number.
fn keeps_values(product: &Product, which: Which, month: u32) -> bool
    requires { suc month < product.now.months }
    ensures { result ≡ keeps_values product.now (plan_of which (payments_of product.now)) month (suc month) }
{
    is_same(
        interest_first(product, month),
        interest_first(product, month + 1),
    ) & rates_are_same(product, month)
        & sojourns_are_same(product, which, month)
        & sums_are_same(product, which, month)
}

/// Whether a month goes on with the stretch of the month before: nothing varies there, and every curve, sojourn rate
/// and sum of the plan keeps its value. Takes no memory.
pub fn continues_stretch(product: &Product, which: Which, month: u32) -> bool
    requires { month < product.now.months }
    ensures { result ≡ continues_stretch product.now (plan_of which (payments_of product.now)) month }
{
    if month == 0 {
        false
    } else {
        is_constant_month(product, which, month - 1) & keeps_values(product, which, month - 1)
    }
}
