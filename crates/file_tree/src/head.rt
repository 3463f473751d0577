//! The format and the term of a file.

ghost use Rattle.std.specs.Prelude.{◌≡◌, ◌≤◌, None};
ghost use Rattle.toml.specs.View.{table_view};
ghost use Rattle.named_numbers.specs.Numbers.{most_months};
ghost use Rattle.whole_laws.specs.Whole.{natural_part};
ghost use Rattle.product_file.specs.Checks.{first_failed};
ghost use Rattle.product_file.specs.HeadRules.{rule_4, is_from_to, is_format_1};
ghost use Rattle.product_file.specs.CurveRules.{months_of_term};

use crate::table::whole_of;
use toml::Table;

/// Whether the number is from one to another.
pub fn is_from_to(low: i64, high: i64, number: i64) -> bool
    ensures { result ≡ is_from_to low high number }
{
    low <= number && number <= high
}

/// Whether the file is of format 1.
pub fn is_format_1(tree: &Table) -> bool
    ensures { result ≡ is_format_1 (table_view tree.now) }
{
    is_from_to(1, 1, whole_of(tree, "format"))
}

/// The number, or 0 where it is below 0.
pub fn natural_part(number: i64) -> u64
    ensures { result ≡ natural_part number }
{
    if number < 0 { 0 } else { number as u64 }
}

/// The term in months.
pub fn term(tree: &Table) -> u32
    requires { first_failed (rule_4 (table_view tree.now)) ≡ None }
    ensures value { result ≡ months_of_term (table_view tree.now) }
    ensures some { 1 ≤ result }
    ensures most { result ≤ most_months }
{
    natural_part(whole_of(tree, "months")) as u32
}
