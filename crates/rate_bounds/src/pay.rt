//! What a plan pays in a month.

ghost use Rattle.std.specs.Prelude.{◌≡◌, ℕ, ◌*◌, ◌^◌, ◌<◌, ◌≤◌, All, length, map};
ghost use Rattle.model_specs.specs.Growth.{pay};
ghost use Rattle.ledger_laws.specs.MonthLaws.{ObeysMonthRules};
ghost use Rattle.rate_bounds.specs.MonthPay.{plan_named, sojourn_load, sum_load, exit_pay, exits_pay};
ghost use Rattle.rate_bounds.specs.MonthPay.{paid_in_state, greatest_paid};

use crate::exits::exits_of;
use crate::rates::{month_unit, rate_part};
use ledger_laws::pay_is_small;
use named_numbers::{CELLS_OF_HALF_YEAR, PAY_UNIT};
use payment_plan::{Which, amount_load};
use product_model::{Product, plans_agree};
use state_graph::Edge;

// The load of a state's sojourn rate, in minor units a year.
fn sojourn_load(product: &Product, which: Which, state: usize, month: u32) -> u128
    requires state { state < length product.now.states }
    requires month { month < product.now.months }
    ensures value { result ≡ sojourn_load (plan_named which product.now) month state }
    ensures most { result ≤ 9 * 10 ^ 12 }
{
    plans_agree();
    let step = product.plan().sojourn_at(which, state, month);
    amount_load(&step, month) as u128
}

/// The load of a transition's sum, in minor units.
pub(crate) fn sum_load(product: &Product, which: Which, transition: usize, month: u32) -> u128
    requires transition { transition < length product.now.transitions }
    requires month { month < product.now.months }
    ensures value { result ≡ sum_load (plan_named which product.now) month transition }
    ensures most { result ≤ 9 * 10 ^ 12 }
{
    plans_agree();
    let step = product.plan().sum_at(which, transition, month);
    amount_load(&step, month) as u128
}

// What an exit pays: its rate times the load of its sum. Most transitions have no sum, and then the rate is not formed.
fn exit_pay(product: &Product, which: Which, transition: usize, month: u32) -> u128
    requires transition { transition < length product.now.transitions }
    requires month { month < product.now.months }
    requires fits { exit_pay product.now (plan_named which product.now) month transition < 2 ^ 127 }
    ensures { result ≡ exit_pay product.now (plan_named which product.now) month transition }
{
    let load = sum_load(product, which, transition, month);
    if load == 0 {
        0
    } else {
        rate_part(product, transition, month) * load
    }
}

// What some exits pay together.
fn exits_pay(product: &Product, which: Which, exits: &[Edge], month: u32) -> u128
    requires month { month < product.now.months }
    requires within { All (λ exit. exit.transition < length product.now.transitions) exits.now }
    requires fits { exits_pay product.now (plan_named which product.now) month
        (map (λ exit. exit.transition) exits.now) < 2 ^ 127 }
    ensures { result ≡ exits_pay product.now (plan_named which product.now) month
        (map (λ exit. exit.transition) exits.now) }
{
    let mut sum = 0;
    for exit in exits {
        sum += exit_pay(product, which, exit.transition, month);
    }
    sum
}

// What a state pays in a month, a year, over `2488320 * den`.
fn paid_in_state(product: &Product, which: Which, state: usize, month: u32) -> u128
    requires state { state < length product.now.states }
    requires month { month < product.now.months }
    requires fits { paid_in_state product.now (plan_named which product.now) month state < 2 ^ 117 }
    ensures { result ≡ paid_in_state product.now (plan_named which product.now) month state }
{
    let sojourn = sojourn_load(product, which, state, month) * month_unit(product);
    sojourn + exits_pay(product, which, exits_of(product, state), month)
}

// The most that a state pays.
fn greatest_paid(product: &Product, which: Which, month: u32) -> u128
    requires month { month < product.now.months }
    requires fits { (i : ℕ) → i < length product.now.states
        → paid_in_state product.now (plan_named which product.now) month i < 2 ^ 117 }
    ensures value { result ≡ greatest_paid product.now (plan_named which product.now) month }
    ensures most { result < 2 ^ 117 }
{
    let mut most = 0;
    for state in 0..product.graph().states() {
        most = paid_in_state(product, which, state, month).max(most);
    }
    most
}

/// What a cell of a month may add to the bound ledger of a plan, in 1/1024 minor units, where rules 15 to 17 hold in
/// the month.
pub(crate) fn pay1024(product: &Product, which: Which, month: u32) -> u128
    requires month { month < product.now.months }
    requires rules { ObeysMonthRules product.now month }
    ensures { result ≡ pay product.now (plan_named which product.now) month }
{
    pay_is_small();
    let unit = month_unit(product);
    (PAY_UNIT * greatest_paid(product, which, month)).div_ceil(CELLS_OF_HALF_YEAR * unit)
}
