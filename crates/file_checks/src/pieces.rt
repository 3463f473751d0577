//! Rule 8: the pieces of the curves.

ghost use Rattle.std.specs.Prelude.{◌≡◌, ◌+◌, ◌*◌, ◌<◌, ◌≤◌, IfSome, length, map, None};
ghost use Rattle.toml.specs.View.{view, table_view};
ghost use Rattle.named_numbers.specs.Numbers.{most_months};
ghost use Rattle.product_file.specs.Checks.{first_failed, first_failed_of_lists, places_of_list};
ghost use Rattle.product_file.specs.HeadRules.{rule_3, rule_4};
ghost use Rattle.product_file.specs.TransitionRule.{rule_7};
ghost use Rattle.product_file.specs.CurveRules.{most_coefficients, is_in_order, rule_8_of, rule_8};
ghost use Rattle.file_checks.specs.Lists.{is_good_piece};

use file_tree::{
    curve, is_format_1, is_from_to, is_table_of, item, piece_keys, start_of, transitions, whole_of,
};
use toml::{Table, Value};

// How many places of a rule a list has room for.
const PLACES_OF_LIST: u32 = 4096;

// How many coefficients a piece may have: 4 in format 1 and 6 in format 2.
fn most_coefficients(tree: &Table) -> usize
    ensures { result ≡ most_coefficients (table_view tree.now) }
{
    if is_format_1(tree) { 4 } else { 6 }
}

/// Whether the starts of pieces or steps are in order at a place: the first is 0, each later one is above the one
/// before, and each is below the term.
pub(crate) fn is_in_order(months: i64, values: &[Value], i: usize) -> bool
    requires { i < length values.now }
    ensures { result ≡ is_in_order months (map view values.now) i }
{
    let start = start_of(item(values, i));
    if i == 0 {
        is_from_to(0, 0, start) & (start < months)
    } else {
        (start_of(item(values, i - 1)) < start) & (start < months)
    }
}

// Whether the piece at a place is one, and starts in order.
fn is_good_piece(tree: &Table, pieces: &[Value], i: usize) -> bool
    requires { i < length pieces.now }
    ensures { result ≡ is_good_piece (table_view tree.now) (map view pieces.now) i }
{
    let is_piece = is_table_of(item(pieces, i), &piece_keys(most_coefficients(tree)));
    is_piece & is_in_order(whole_of(tree, "months"), pieces, i)
}

// The first piece of a curve that breaks rule 8, and 0 where there is no piece.
fn piece_break(tree: &Table, pieces: &[Value]) -> Option<u32>
    requires { first_failed (rule_4 (table_view tree.now)) ≡ None }
    ensures value { result ≡ first_failed (rule_8_of (table_view tree.now) (map view pieces.now)) }
    ensures small { IfSome result (λ i. i ≤ most_months) }
{
    if pieces.is_empty() {
        return Some(0);
    }
    for i in 0..pieces.len() {
        if !is_good_piece(tree, pieces, i) {
            return Some(i as u32);
        }
    }
    None
}

/// The place of an item of a list: 4096 times the number of the list, and the item.
pub(crate) fn place(list: usize, item: u32) -> u32
    requires list { list < 1000 }
    requires item { item ≤ most_months }
    ensures { result ≡ places_of_list * list + item }
{
    PLACES_OF_LIST * list as u32 + item
}

/// The first place that breaks rule 8: 4096 times the curve, and the piece.
pub(crate) fn curve_break(tree: &Table) -> Option<u32>
    requires names { first_failed (rule_3 (table_view tree.now)) ≡ None }
    requires term { first_failed (rule_4 (table_view tree.now)) ≡ None }
    requires transitions { first_failed (rule_7 (table_view tree.now)) ≡ None }
    ensures { result ≡ first_failed_of_lists (rule_8 (table_view tree.now)) }
{
    // the interest, and the rate of each transition
    let count = 1 + transitions(tree).len();
    for k in 0..count {
        if let Some(i) = piece_break(tree, curve(tree, k)) {
            return Some(place(k, i));
        }
    }
    None
}
