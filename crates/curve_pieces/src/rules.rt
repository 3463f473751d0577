//! The first piece that breaks a rule.

ghost use Rattle.std.specs.Prelude.{◌≡◌, ℕ, ◌+◌, ◌<◌, ◌≤◌, ◌↔◌, All, IsTrue, IfSome, IfNone, length, slice_index_or};
ghost use Rattle.named_numbers.specs.Numbers.{most_months};
ghost use Rattle.model_specs.specs.RecordRules.{IsBounded};
ghost use Rattle.curve_pieces.specs.Records.{records_of, starts_of};
ghost use Rattle.curve_pieces.specs.BrokenRules.{StartsInOrder, IsBoundedAt, IsFirstBroken};

use crate::piece::{Piece, start};
use named_numbers::MOST_COEFFICIENT;

// Rule 9: each |c[i]| s^i is at most 10^22, for a piece of s months.
fn is_bounded(c: &[i64; 6], months: u32) -> bool
    requires { months ≤ most_months }
    ensures { IsTrue result ↔ IsBounded c.now months }
{
    let mut power: u128 = 1;
    for number in c {
        if u128::from(number.unsigned_abs()) * power > MOST_COEFFICIENT {
            return false;
        }
        power *= u128::from(months);
    }
    true
}

// Rule 8 at a piece.
fn is_in_order(pieces: &[Piece], i: usize, months: u32) -> bool
    requires { i < length pieces.now }
    ensures { IsTrue result ↔ StartsInOrder months (starts_of pieces.now) i }
{
    let from = start(pieces, i);
    let after_last = if i == 0 {
        from == 0
    } else {
        start(pieces, i - 1) < from
    };
    after_last && from < months
}

// The month before which a piece ends: the next one's start, or the term.
fn end(pieces: &[Piece], i: usize, months: u32) -> u32
    requires { i < length pieces.now }
    ensures { result ≡ slice_index_or (starts_of pieces.now) (i + 1) months }
{
    if i + 1 < pieces.len() {
        start(pieces, i + 1)
    } else {
        months
    }
}

// Rule 9 at a piece.
fn is_bounded_at(pieces: &[Piece], i: usize, months: u32) -> bool
    requires inside { i < length pieces.now }
    requires term { months ≤ most_months }
    requires in_order { (k : ℕ) → StartsInOrder months (starts_of pieces.now) k }
    ensures { IsTrue result ↔ IsBoundedAt months (records_of pieces.now) i }
{
    let months_held = end(pieces, i, months) - start(pieces, i);
    is_bounded(&pieces[i].c, months_held)
}

/// The first piece that breaks rule 8, and 0 where there is no piece.
pub(crate) fn first_out_of_order(pieces: &[Piece], months: u32) -> Option<u32>
    ensures some { IfSome result (IsFirstBroken (StartsInOrder months (starts_of pieces.now))) }
    ensures none { IfNone result ((i : ℕ) → StartsInOrder months (starts_of pieces.now) i) }
{
    if pieces.is_empty() {
        return Some(0);
    }
    let mut index = 0;
    for i in 0..pieces.len() {
        if !is_in_order(pieces, i, months) {
            return Some(index);
        }
        index += 1;
    }
    None
}

/// The first piece that breaks rule 9.
pub(crate) fn first_unbounded(pieces: &[Piece], months: u32) -> Option<u32>
    requires term { months ≤ most_months }
    requires in_order { (k : ℕ) → StartsInOrder months (starts_of pieces.now) k }
    ensures some { IfSome result (IsFirstBroken (IsBoundedAt months (records_of pieces.now))) }
    ensures none { IfNone result ((i : ℕ) → IsBoundedAt months (records_of pieces.now) i) }
{
    let mut index = 0;
    for i in 0..pieces.len() {
        if !is_bounded_at(pieces, i, months) {
            return Some(index);
        }
        index += 1;
    }
    None
}

// The first coefficient is read so that a proof knows of the array and its length.
fn first_coefficient(piece: &Piece) -> i64
    ensures { length piece.now.c ≡ 6 }
{
    piece.c[0]
}

/// Each piece has six coefficients, as its type says. A proof learns it from reading each.
pub(crate) fn have_six(pieces: &[Piece])
    ensures { All (λ piece. length piece.c ≡ 6) (records_of pieces.now) }
{
    for piece in pieces {
        let _first = first_coefficient(piece);
    }
}
