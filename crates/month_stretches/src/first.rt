//! The coefficients that hold in a month: the first one, and whether it is alone.

ghost use Rattle.std.specs.Prelude.{◌≡◌, ◌<◌, ◌≤◌, ◌==◌, ◌-ℤ◌, unsigned_abs, length};
ghost use Rattle.std.specs.List.{list_all};
ghost use Rattle.named_numbers.specs.Numbers.{most_months};
ghost use Rattle.model_specs.specs.MonthNumbers.{coefficient_at};
ghost use Rattle.model_specs.specs.Stretches.{is_constant};
ghost use Rattle.payment_plan.specs.Payments.{plan_of};
ghost use Rattle.product_model.specs.Views.{payments_of};
ghost use Rattle.month_stretches.specs.Parts.{interest_in, rate_in, sojourn_in, sum_in};

use payment_plan::Which;
use product_model::Product;

// The first coefficient of a polynomial, and whether all others are 0.
#[derive(Clone, Copy, Debug, PartialEq, Eq)]
pub(crate) struct First {
    pub(crate) value: i64,
    pub(crate) alone: bool,
}

fn are_zero(numbers: &[i64]) -> bool
    ensures { result ≡ list_all (λ x. unsigned_abs x == 0) numbers.now }
{
    numbers.iter().all(|x| x.unsigned_abs() == 0)
}

fn first_of(c: &[i64]) -> First
    requires { 0 < length c.now }
    ensures value { result.value ≡ coefficient_at c.now 0 }
    ensures alone { result.alone ≡ is_constant c.now }
{
    First {
        value: c[0],
        alone: are_zero(&c[1..]),
    }
}

// Whether two polynomials begin with the same number.
pub(crate) fn is_same(one: First, other: First) -> bool
    ensures { result ≡ (unsigned_abs (one.value -ℤ other.value) == 0) }
{
    one.value == other.value
}

// Of the interest in a month.
pub(crate) fn interest_first(product: &Product, month: u32) -> First
    requires { month < product.now.months }
    ensures value { result.value ≡ coefficient_at (interest_in product.now month) 0 }
    ensures alone { result.alone ≡ is_constant (interest_in product.now month) }
    ensures term { product.now.months ≤ most_months }
{
    first_of(&product.interest().at(month).c)
}

// Of the rate of a transition.
pub(crate) fn rate_first(product: &Product, month: u32, transition: usize) -> First
    requires month { month < product.now.months }
    requires transition { transition < length product.now.transitions }
    ensures value { result.value ≡ coefficient_at (rate_in product.now month transition) 0 }
    ensures alone { result.alone ≡ is_constant (rate_in product.now month transition) }
{
    first_of(&product.rate(transition).at(month).c)
}

// Of the sojourn rate of a state.
pub(crate) fn sojourn_first(product: &Product, which: Which, month: u32, state: usize) -> First
    requires month { month < product.now.months }
    requires state { state < length product.now.states }
    ensures value { result.value
        ≡ coefficient_at (sojourn_in (plan_of which (payments_of product.now)) month state) 0 }
    ensures alone { result.alone
        ≡ is_constant (sojourn_in (plan_of which (payments_of product.now)) month state) }
{
    first_of(&product.plan().sojourn_at(which, state, month).c)
}

// Of the sum of a transition.
pub(crate) fn sum_first(product: &Product, which: Which, month: u32, transition: usize) -> First
    requires month { month < product.now.months }
    requires transition { transition < length product.now.transitions }
    ensures value { result.value
        ≡ coefficient_at (sum_in (plan_of which (payments_of product.now)) month transition) 0 }
    ensures alone { result.alone
        ≡ is_constant (sum_in (plan_of which (payments_of product.now)) month transition) }
{
    first_of(&product.plan().sum_at(which, transition, month).c)
}
