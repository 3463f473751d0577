//! The curves of a file that breaks no rule.

ghost use Rattle.std.specs.Prelude.{◌≡◌, ◌<◌, ◌≤◌, All, IfOk, length, map};
ghost use Rattle.toml.specs.View.{view, table_view};
ghost use Rattle.named_numbers.specs.Numbers.{most_months};
ghost use Rattle.whole_laws.specs.Whole.{natural_part};
ghost use Rattle.model_specs.specs.RecordRules.{IsCurve, IsBoundedCurve, IsWellFormed};
ghost use Rattle.curve_pieces.specs.Records.{record_of, records_of};
ghost use Rattle.product_file.specs.CurveRules.{piece_of, start_of};
ghost use Rattle.product_file.specs.Members.{item_at};
ghost use Rattle.product_file.specs.TransitionRule.{transition_items};
ghost use Rattle.product_file.specs.Reads.{product_of};
ghost use Rattle.product_model.specs.Views.{curve_of};
ghost use Rattle.product_reader.specs.Parts.{rate_of};

use curve_pieces::{Curve, Piece};
use file_tree::{
    item, items_of, items_within, month_of, piece_coefficients, start_of, transitions,
};
use std::alloc::{AllocError, Global};
use toml::{Table, Value};

// A piece, with 0 for each coefficient that the file leaves out.
fn piece_from(value: &Value) -> Piece
    requires { natural_part (start_of (view value.now)) ≤ most_months }
    ensures { record_of result ≡ piece_of (view value.now) }
{
    Piece {
        from: month_of(start_of(value)),
        c: piece_coefficients(value),
    }
}

// The pieces of a curve.
fn pieces_from(alloc: Global, values: &[Value]) -> Result<Vec<Piece>, AllocError>
    requires { All (λ d. natural_part (start_of d) ≤ most_months) (map view values.now) }
    ensures { IfOk result (λ pieces. records_of pieces.items ≡ map piece_of (map view values.now)) }
{
    let mut pieces = Vec::new(alloc);
    for i in 0..values.len() {
        pieces.push(piece_from(item(values, i)))?;
    }
    Ok(pieces)
}

// The curve of some pieces that obey rules 8 and 9.
fn curve_from(alloc: Global, values: &[Value], months: u32) -> Result<Curve, AllocError>
    requires some_month { 1 ≤ months }
    requires most_months { months ≤ most_months }
    requires rule_8 { IsCurve months (map piece_of (map view values.now)) }
    requires rule_9 { IsBoundedCurve months (map piece_of (map view values.now)) }
    ensures { IfOk result (λ curve. curve ≡ record { pieces = map piece_of (map view values.now); months = months }) }
{
    let pieces = pieces_from(alloc, values)?;
    // the pieces obey rules 8 and 9, so they are not refused
    Ok(Curve::new(alloc, pieces, months).unwrap())
}

/// The force of interest.
pub(crate) fn interest_from(alloc: Global, tree: &Table, months: u32) -> Result<Curve, AllocError>
    requires well_formed { IsWellFormed (product_of (table_view tree.now)) }
    requires months { months ≡ (product_of (table_view tree.now)).months }
    ensures { IfOk result (λ curve. curve ≡
        curve_of (product_of (table_view tree.now)) (product_of (table_view tree.now)).interest) }
{
    curve_from(alloc, items_of(tree, "interest"), months)
}

// The intensity of a transition.
fn rate_from(alloc: Global, tree: &Table, k: usize, months: u32) -> Result<Curve, AllocError>
    requires well_formed { IsWellFormed (product_of (table_view tree.now)) }
    requires months { months ≡ (product_of (table_view tree.now)).months }
    requires inside { k < length (transition_items (table_view tree.now)) }
    ensures { IfOk result (λ curve. curve ≡
        rate_of (table_view tree.now) (item_at (transition_items (table_view tree.now)) k)) }
{
    let pieces = items_within(item(transitions(tree), k), "rate");
    curve_from(alloc, pieces, months)
}

/// The intensities of the transitions, in the file's order.
pub(crate) fn rates_from(alloc: Global, tree: &Table, months: u32) -> Result<Vec<Curve>, AllocError>
    requires well_formed { IsWellFormed (product_of (table_view tree.now)) }
    requires months { months ≡ (product_of (table_view tree.now)).months }
    ensures { IfOk result (λ rates. rates.items ≡
        map (rate_of (table_view tree.now)) (transition_items (table_view tree.now))) }
{
    let count = transitions(tree).len();
    let mut rates = Vec::new(alloc);
    for k in 0..count {
        rates.push(rate_from(alloc, tree, k, months)?)?;
    }
    Ok(rates)
}
