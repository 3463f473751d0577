//! The numbers of pieces, steps and dates, as a product has them.

ghost use Rattle.std.specs.Prelude.{◌≡◌, ◌≤◌, codes};
ghost use Rattle.toml.specs.View.{view, table_view};
ghost use Rattle.named_numbers.specs.Numbers.{most_months};
ghost use Rattle.whole_laws.specs.Whole.{natural_part};
ghost use Rattle.product_file.specs.Members.{members_of};
ghost use Rattle.product_file.specs.CurveRules.{coefficients_of};
ghost use Rattle.product_file.specs.PaymentRules.{amount_of};

use crate::head::is_format_1;
use crate::within::{coefficient_at, items_within, whole_within};
use toml::{Table, Value};

/// A whole number of months, or 0 where it is below 0.
pub fn month_of(number: i64) -> u32
    requires { natural_part number ≤ most_months }
    ensures { result ≡ natural_part number }
{
    if number < 0 { 0 } else { number as u32 }
}

/// The six coefficients of a piece, 0 for those left out.
pub fn piece_coefficients(value: &Value) -> [i64; 6]
    ensures { result ≡ coefficients_of 6 (codes "c") (members_of (view value.now)) }
{
    let c = items_within(value, "c");
    [
        coefficient_at(c, 0),
        coefficient_at(c, 1),
        coefficient_at(c, 2),
        coefficient_at(c, 3),
        coefficient_at(c, 4),
        coefficient_at(c, 5),
    ]
}

// The four coefficients of a step of format 2, 0 for those left out.
fn varying_amount(value: &Value) -> [i64; 4]
    ensures { result ≡ coefficients_of 4 (codes "c") (members_of (view value.now)) }
{
    let c = items_within(value, "c");
    [
        coefficient_at(c, 0),
        coefficient_at(c, 1),
        coefficient_at(c, 2),
        coefficient_at(c, 3),
    ]
}

/// The four coefficients of a step in the file's format, in minor units (a year, for a sojourn).
pub fn amount_of(tree: &Table, value: &Value) -> [i64; 4]
    ensures { result ≡ amount_of (table_view tree.now) (view value.now) }
{
    if is_format_1(tree) {
        [whole_within(value, "amount"), 0, 0, 0]
    } else {
        varying_amount(value)
    }
}
