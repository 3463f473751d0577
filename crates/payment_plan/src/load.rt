//! Loads: how much a payment weighs in a month.

ghost use Rattle.std.specs.Prelude.{◌≡◌, ◌+◌, ◌-◌, ◌*◌, ◌<◌, ◌≤◌, pos, ◌-ℤ◌, map, unsigned_abs};
ghost use Rattle.named_numbers.specs.Numbers.{most_months, most_amount};
ghost use Rattle.whole_laws.specs.Whole.{greatest_natural, greatest_whole, least_whole, natural_part};
ghost use Rattle.model_specs.specs.Growth.{load};
ghost use Rattle.model_specs.specs.RecordRules.{IsBoundedStep};
ghost use Rattle.payment_plan.specs.Records.{record_of};
ghost use Rattle.payment_plan.specs.Loads.{AreWithin, load_of_numerators};

use crate::step::StepAmount;
use named_numbers::BERNSTEIN_UNIT;

// The greatest size of six numbers.
fn greatest_size(numbers: &[i128; 6]) -> u128
    ensures { result ≡ greatest_natural (map unsigned_abs numbers.now) }
{
    let [a, b, c, d, e, f] = numbers.map(i128::unsigned_abs);
    a.max(b.max(c.max(d.max(e.max(f)))))
}

// The greatest of six numbers.
fn greatest(numbers: &[i128; 6]) -> i128
    ensures { result ≡ greatest_whole numbers.now }
{
    let [a, b, c, d, e, f] = *numbers;
    a.max(b.max(c.max(d.max(e.max(f)))))
}

// The least of six numbers.
fn least(numbers: &[i128; 6]) -> i128
    ensures { result ≡ least_whole numbers.now }
{
    let [a, b, c, d, e, f] = *numbers;
    a.min(b.min(c.min(d.min(e.min(f)))))
}

// How far the greatest of six numbers is above the least.
fn spread(numbers: &[i128; 6]) -> u128
    requires { AreWithin numbers.now }
    ensures { result ≡ natural_part (greatest_whole numbers.now -ℤ least_whole numbers.now) }
{
    (greatest(numbers) - least(numbers)) as u128
}

// The load of a payment with these Bernstein numerators.
fn load_of(numbers: &[i128; 6]) -> i128
    requires { AreWithin numbers.now }
    ensures value { result ≡ pos (load_of_numerators numbers.now) }
    ensures most { load_of_numerators numbers.now ≤ 9 * most_amount }
{
    let weight = greatest_size(numbers) + 4 * spread(numbers);
    weight.div_ceil(BERNSTEIN_UNIT) as i128
}

/// The load of a step in a month, in minor units (per year, for a sojourn): the greatest size of the Bernstein
/// coefficients of its amount there and four times their spread, rounded up. Takes no memory.
pub fn amount_load(s: &StepAmount, month: u32) -> i128
    requires started { s.now.from ≤ month }
    requires term { month < most_months }
    requires bounded { IsBoundedStep s.now.c (month - s.now.from + 1) }
    ensures value { result ≡ pos (load (record_of s.now) month) }
    ensures most { load (record_of s.now) month ≤ 9 * most_amount }
{
    let numerators = s.in_years().month_bernstein(month - s.from);
    load_of(&numerators)
}
