//! Changed curves.

ghost use Rattle.std.specs.Prelude.{◌≡◌, ◌⊎◌, ◌≤◌, pos, ◌*ℤ◌, unsigned_abs, IfOk, IfSome, IfNone};
ghost use Rattle.named_numbers.specs.Numbers.{most_denominator};
ghost use Rattle.curve_pieces.specs.Records.{records_of};
ghost use Rattle.file_changes.specs.Asks.{HaveWords, IsSmallCurve};
ghost use Rattle.file_changes.specs.BasisChanges as basis;

use crate::coefficients::changed_piece;
use curve_pieces::{Curve, Piece};
use std::alloc::{AllocError, Global};

// The pieces with each coefficient times `factor`, and each first one more by `units * den`; none where one has more
// than 64 bits.
fn changed_pieces(
    alloc: Global,
    pieces: &[Piece],
    factor: i128,
    units: i128,
    den: i64,
) -> Result<Option<Vec<Piece>>, AllocError>
    requires { (units ≡ pos 0) ⊎ (unsigned_abs factor ≤ most_denominator) }
    ensures changed { IfOk result (λ found. IfSome found (λ changed. records_of changed.items
        ≡ basis.changed_pieces factor (units *ℤ den) (records_of pieces.now))) }
    ensures words { IfOk result (λ found. IfSome found (λ changed. HaveWords (records_of changed.items))) }
    ensures too_large { IfOk result (λ found. IfNone found
        (¬ HaveWords (basis.changed_pieces factor (units *ℤ den) (records_of pieces.now)))) }
{
    let mut changed = Vec::new(alloc);
    for i in 0..pieces.len() {
        match changed_piece(&pieces[i], factor, units, den) {
            Some(piece) => changed.push(piece)?,
            None => return Ok(None),
        }
    }
    Ok(Some(changed))
}

/// A curve with such pieces; none where a coefficient has more than 64 bits or breaks rule 9.
pub(crate) fn changed_curve(
    alloc: Global,
    curve: &Curve,
    factor: i128,
    units: i128,
    den: i64,
) -> Result<Option<Curve>, AllocError>
    requires { (units ≡ pos 0) ⊎ (unsigned_abs factor ≤ most_denominator) }
    ensures changed { IfOk result (λ found. IfSome found (λ changed. changed ≡ record {
      pieces = basis.changed_pieces factor (units *ℤ den) curve.now.pieces;
      months = curve.now.months;
    })) }
    ensures small { IfOk result (λ found. IfSome found (λ changed. IsSmallCurve changed.months changed.pieces)) }
    ensures too_large { IfOk result (λ found. IfNone found (¬ IsSmallCurve curve.now.months
        (basis.changed_pieces factor (units *ℤ den) curve.now.pieces))) }
{
    let months = curve.months();
    match changed_pieces(alloc, curve.pieces(), factor, units, den)? {
        Some(pieces) => Ok(Curve::new(alloc, pieces, months).ok()),
        None => Ok(None),
    }
}
