//! The first month that breaks one of rules 15 to 17.

ghost use Rattle.std.specs.Prelude.{◌≡◌, option_map};
ghost use Rattle.rule_breaks.specs.Breaks.{break_of};
ghost use Rattle.rate_bounds.specs.Breaks.{broken_by_month, first_breaking, obeys};
ghost use Rattle.rate_bounds.specs.MonthTables.{AreCurvesUpTo};

use crate::curves::MonthCurves;
use crate::rates::month_unit;
use crate::rules::{MonthRule, obeys};
use product_model::Product;
use rule_breaks::RuleBreak;

// The first month that breaks a rule.
fn first_breaking(product: &Product, curves: &[MonthCurves], rule: MonthRule) -> Option<u32>
    requires { AreCurvesUpTo product.now product.now.months curves.now }
    ensures { result ≡ first_breaking (obeys rule product.now) product.now.months }
{
    let unit = month_unit(product) as i128;
    for month in 0..product.months() {
        if !obeys(rule, curves[month as usize], unit) {
            return Some(month);
        }
    }
    None
}

/// The first of rules 15 to 17 that is broken in a month, and the month: each rule is looked at over the whole term
/// before the next. Takes no memory.
pub(crate) fn broken_by_month(product: &Product, curves: &[MonthCurves]) -> Option<RuleBreak>
    requires { AreCurvesUpTo product.now product.now.months curves.now }
    ensures { option_map break_of result ≡ broken_by_month product.now }
{
    if let Some(place) = first_breaking(product, curves, MonthRule::Interest) {
        return Some(RuleBreak { rule: 15, place });
    }
    if let Some(place) = first_breaking(product, curves, MonthRule::Intensities) {
        return Some(RuleBreak { rule: 16, place });
    }
    if let Some(place) = first_breaking(product, curves, MonthRule::Exits) {
        return Some(RuleBreak { rule: 17, place });
    }
    None
}
