//! For how many months pieces and steps hold, and rules 9 and 11 of each.

ghost use Rattle.std.specs.Prelude.{◌≡◌, ◌+◌, ◌<◌, ◌≤◌, length, map, None, slice_index_or};
ghost use Rattle.toml.specs.View.{view, table_view};
ghost use Rattle.named_numbers.specs.Numbers.{most_months};
ghost use Rattle.model_specs.specs.RecordRules.{months_of};
ghost use Rattle.product_file.specs.Checks.{first_failed};
ghost use Rattle.product_file.specs.HeadRules.{rule_4};
ghost use Rattle.product_file.specs.CurveRules.{months_of_term};
ghost use Rattle.file_checks.specs.Lists.{AreInOrder, starts_of, is_bounded_piece, is_bounded_step_at};

use crate::sizes::{has_small_amounts, is_bounded};
use file_tree::{amount_of, item, natural_within, piece_coefficients, term};
use toml::{Table, Value};

// The month before which the piece or step at a place ends: the next one's start, or the term.
fn end_of(tree: &Table, values: &[Value], i: usize) -> u64
    requires term { first_failed (rule_4 (table_view tree.now)) ≡ None }
    requires in_order { AreInOrder (table_view tree.now) (map view values.now) }
    requires inside { i < length values.now }
    ensures value { result ≡ slice_index_or (starts_of (map view values.now)) (i + 1)
        (months_of_term (table_view tree.now)) }
    ensures small { result ≤ most_months }
{
    if i + 1 < values.len() {
        natural_within(item(values, i + 1), "from")
    } else {
        u64::from(term(tree))
    }
}

// For how many months the piece or step at a place holds.
fn months_held(tree: &Table, values: &[Value], i: usize) -> u32
    requires term { first_failed (rule_4 (table_view tree.now)) ≡ None }
    requires in_order { AreInOrder (table_view tree.now) (map view values.now) }
    requires inside { i < length values.now }
    ensures value { result ≡ months_of (months_of_term (table_view tree.now)) (starts_of (map view values.now)) i }
    ensures small { result ≤ most_months }
{
    let start = natural_within(item(values, i), "from");
    end_of(tree, values, i).saturating_sub(start) as u32
}

/// Whether the piece at a place is bounded.
pub(crate) fn is_bounded_piece(tree: &Table, pieces: &[Value], i: usize) -> bool
    requires term { first_failed (rule_4 (table_view tree.now)) ≡ None }
    requires in_order { AreInOrder (table_view tree.now) (map view pieces.now) }
    requires inside { i < length pieces.now }
    ensures { result ≡ is_bounded_piece (table_view tree.now) (map view pieces.now) i }
{
    let c = piece_coefficients(item(pieces, i));
    is_bounded(&c, months_held(tree, pieces, i))
}

/// Whether the step at a place is bounded, and its amounts are.
pub(crate) fn is_bounded_step(tree: &Table, steps: &[Value], i: usize) -> bool
    requires term { first_failed (rule_4 (table_view tree.now)) ≡ None }
    requires in_order { AreInOrder (table_view tree.now) (map view steps.now) }
    requires inside { i < length steps.now }
    ensures { result ≡ is_bounded_step_at (table_view tree.now) (map view steps.now) i }
{
    let c = amount_of(tree, item(steps, i));
    let months = months_held(tree, steps, i);
    is_bounded(&c, months) && has_small_amounts(&c, months)
}
