//! Rules 1, 2 and 4 to 6: the keys of the top table, the format, the term, the denominator and the start.

ghost use Rattle.std.specs.Prelude.{◌≡◌, ◌^◌, ◌<◌, length};
ghost use Rattle.toml.specs.View.{table_view};
ghost use Rattle.product_file.specs.Checks.{first_failed};
ghost use Rattle.product_file.specs.HeadRules.{rule_1, rule_2, rule_4, rule_5, rule_6};

use file_tree::{has_key, has_no_other_key, is_from_to, state_of, text_of, top_keys, whole_of};
use named_numbers::{MOST_DENOMINATOR, MOST_MONTHS};
use toml::Table;

// The longest term, in months.
const LONGEST_TERM: i64 = MOST_MONTHS as i64;

/// The first place at which a check is false.
pub(crate) fn first_false(checks: &[bool]) -> Option<u32>
    requires { length checks.now < 2 ^ 32 }
    ensures { result ≡ first_failed checks.now }
{
    for (i, check) in checks.iter().enumerate() {
        if !*check {
            return Some(i as u32);
        }
    }
    None
}

/// The first place that breaks rule 1: the number of a key that is missing or of a wrong type, and the number of keys
/// for an unknown one.
pub(crate) fn key_break(tree: &Table) -> Option<u32>
    ensures { result ≡ first_failed (rule_1 (table_view tree.now)) }
{
    let keys = top_keys();
    for i in 0..keys.len() {
        if !has_key(tree, &keys[i]) {
            return Some(i as u32);
        }
    }
    if has_no_other_key(tree, &keys) {
        None
    } else {
        Some(keys.len() as u32)
    }
}

/// The place that breaks rule 2: a format other than 1 and 2.
pub(crate) fn format_break(tree: &Table) -> Option<u32>
    ensures { result ≡ first_failed (rule_2 (table_view tree.now)) }
{
    first_false(&[is_from_to(1, 2, whole_of(tree, "format"))])
}

/// The place that breaks rule 4: a term that is not from 1 to 1200 months.
pub(crate) fn term_break(tree: &Table) -> Option<u32>
    ensures { result ≡ first_failed (rule_4 (table_view tree.now)) }
{
    first_false(&[is_from_to(1, LONGEST_TERM, whole_of(tree, "months"))])
}

/// The place that breaks rule 5: a denominator that is not from 1 to 10^12.
pub(crate) fn denominator_break(tree: &Table) -> Option<u32>
    ensures { result ≡ first_failed (rule_5 (table_view tree.now)) }
{
    first_false(&[is_from_to(1, MOST_DENOMINATOR, whole_of(tree, "den"))])
}

/// The place that breaks rule 6: a start that is no state's name.
pub(crate) fn start_break(tree: &Table) -> Option<u32>
    ensures { result ≡ first_failed (rule_6 (table_view tree.now)) }
{
    first_false(&[state_of(tree, text_of(tree, "start")).is_some()])
}
