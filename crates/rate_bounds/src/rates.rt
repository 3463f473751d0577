//! The intensities of a month.

ghost use Rattle.std.specs.Prelude.{◌≡◌, ◌*◌, ◌^◌, ◌<◌, ◌≤◌, All, length, map, unsigned_abs};
ghost use Rattle.named_numbers.specs.Numbers.{bernstein_unit, most_states};
ghost use Rattle.model_specs.specs.MonthNumbers.{month_unit, greatest_rate, rho};
ghost use Rattle.model_specs.specs.RecordRules.{IsWellFormed};
ghost use Rattle.ledger_laws.specs.MonthLaws.{exit_rates};
ghost use Rattle.rate_bounds.specs.MonthRates.{rate_part, rate_sum, least_of, least_rate};

use crate::exits::exits_of;
use crate::extremes::{greatest, least};
use named_numbers::BERNSTEIN_UNIT;
use product_model::Product;
use state_graph::Edge;

/// The denominator of the numbers of a month: they are per year.
pub(crate) fn month_unit(product: &Product) -> u128
    ensures value { result ≡ month_unit product.now }
    ensures some { bernstein_unit ≤ result }
    ensures most { result < 2 ^ 62 }
    ensures lawful { IsWellFormed product.now }
{
    BERNSTEIN_UNIT * u128::from(product.den().unsigned_abs())
}

/// The greatest Bernstein coefficient of a transition's intensity over a month, over `2488320 * den`.
pub(crate) fn greatest_rate(product: &Product, transition: usize, month: u32) -> i128
    requires transition { transition < length product.now.transitions }
    requires month { month < product.now.months }
    ensures value { result ≡ greatest_rate product.now transition month }
    ensures size { unsigned_abs result < 2 ^ 100 }
{
    greatest(&product.rate(transition).month_bernstein(month))
}

/// The same, and 0 where it is below 0.
pub(crate) fn rate_part(product: &Product, transition: usize, month: u32) -> u128
    requires transition { transition < length product.now.transitions }
    requires month { month < product.now.months }
    ensures value { result ≡ rate_part product.now month transition }
    ensures most { result < 2 ^ 100 }
{
    greatest_rate(product, transition, month).max(0) as u128
}

// The sum of the greatest rates of some exits.
fn rate_sum(product: &Product, exits: &[Edge], month: u32) -> i128
    requires month { month < product.now.months }
    requires within { All (λ exit. exit.transition < length product.now.transitions) exits.now }
    requires few { length exits.now ≤ most_states }
    ensures { result ≡ rate_sum product.now month (map (λ exit. exit.transition) exits.now) }
{
    let mut sum = 0;
    for exit in exits {
        sum += greatest_rate(product, exit.transition, month);
    }
    sum
}

// The sum of the greatest rates of a state's exits.
fn exit_rates(product: &Product, state: usize, month: u32) -> i128
    requires state { state < length product.now.states }
    requires month { month < product.now.months }
    ensures { result ≡ exit_rates product.now month state }
{
    rate_sum(product, exits_of(product, state), month)
}

/// The greatest of these sums, over `2488320 * den`.
pub(crate) fn rho(product: &Product, month: u32) -> i128
    requires { month < product.now.months }
    ensures { result ≡ rho product.now month }
{
    let states = product.graph().states();
    let mut most = exit_rates(product, 0, month);
    for state in 1..states {
        most = most.max(exit_rates(product, state, month));
    }
    most
}

// The least Bernstein coefficient of a transition's intensity over a month.
fn least_of(product: &Product, transition: usize, month: u32) -> i128
    requires transition { transition < length product.now.transitions }
    requires month { month < product.now.months }
    ensures { result ≡ least_of product.now month transition }
{
    least(&product.rate(transition).month_bernstein(month))
}

/// The least Bernstein coefficient of all intensities over a month, over `2488320 * den`, and 0 where there is none.
pub(crate) fn least_rate(product: &Product, month: u32) -> i128
    requires { month < product.now.months }
    ensures { result ≡ least_rate product.now month }
{
    if product.transitions() == 0 {
        return 0;
    }
    let mut lowest = least_of(product, 0, month);
    for transition in 1..product.transitions() {
        lowest = lowest.min(least_of(product, transition, month));
    }
    lowest
}
