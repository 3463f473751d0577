//! Coefficients of changed curves.

ghost use Rattle.std.specs.Prelude.{◌≡◌, ◌⊎◌, ◌≤◌, pos, ◌+ℤ◌, ◌*ℤ◌, unsigned_abs, FitsSigned, SomeIff, IfSome, IfNone};
ghost use Rattle.std.specs.Int.{w64};
ghost use Rattle.named_numbers.specs.Numbers.{most_denominator};
ghost use Rattle.curve_pieces.specs.Records.{record_of};
ghost use Rattle.file_changes.specs.ContinuousAsks.{AreWords};
ghost use Rattle.file_changes.specs.BasisChanges as basis;

use curve_pieces::Piece;

// factor * c, if it has at most 64 bits
fn times(factor: i128, c: i64) -> Option<i64>
    ensures { SomeIff result (FitsSigned w64 (factor *ℤ c)) (factor *ℤ c) }
{
    let product = factor.checked_mul(i128::from(c))?;
    i64::try_from(product).ok()
}

// factor * c + units * den, if it has at most 64 bits
fn times_and_more(factor: i128, c: i64, units: i128, den: i64) -> Option<i64>
    requires { (units ≡ pos 0) ⊎ (unsigned_abs factor ≤ most_denominator) }
    ensures { SomeIff result (FitsSigned w64 (factor *ℤ c +ℤ units *ℤ den)) (factor *ℤ c +ℤ units *ℤ den) }
{
    let more = units.checked_mul(i128::from(den))?;
    let product = factor.checked_mul(i128::from(c))?;
    let sum = product.checked_add(more)?;
    i64::try_from(sum).ok()
}

/// A piece with each coefficient times `factor`, and the first one more by `units * den`; none where one of them has
/// more than 64 bits.
pub(crate) fn changed_piece(piece: &Piece, factor: i128, units: i128, den: i64) -> Option<Piece>
    requires { (units ≡ pos 0) ⊎ (unsigned_abs factor ≤ most_denominator) }
    ensures changed { IfSome result (λ changed. record_of changed
        ≡ basis.changed_piece factor (units *ℤ den) (record_of piece.now)) }
    ensures words { IfSome result (λ _. AreWords (basis.changed_coefficients factor (units *ℤ den) piece.now.c)) }
    ensures too_large { IfNone result (¬ AreWords (basis.changed_coefficients factor (units *ℤ den) piece.now.c)) }
{
    let [c0, c1, c2, c3, c4, c5] = piece.c;
    Some(Piece {
        from: piece.from,
        c: [
            times_and_more(factor, c0, units, den)?,
            times(factor, c1)?,
            times(factor, c2)?,
            times(factor, c3)?,
            times(factor, c4)?,
            times(factor, c5)?,
        ],
    })
}
