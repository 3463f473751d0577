//! Pieces of a curve.

ghost use Rattle.std.specs.Prelude.{◌≡◌, ◌<◌, length, slice_index};
ghost use Rattle.curve_pieces.specs.Records.{record_of, starts_of};

use crate::search::Starts;
use poly_small::Poly;

/// From month `from` on, up to the next piece or to the term, `(c[0] + c[1] t + .. + c[5] t^5) / den` per year, where t
/// is the time in years since the piece's start. Coefficients that the file leaves out are 0.
#[derive(Clone, Copy, Debug, PartialEq, Eq)]
pub struct Piece {
    pub from: u32,
    pub c: [i64; 6],
}

impl Starts for Piece {
    ghost as_piece = { record_of };

    fn start(&self) -> u32 {
        self.from
    }
}

impl Piece {
    // The polynomial of the years since the start, over `den`.
    pub(crate) fn in_years(&self) -> Poly
        ensures { result.c ≡ self.now.c }
    {
        let [c0, c1, c2, c3, c4, c5] = self.c;
        Poly {
            c: [
                i128::from(c0),
                i128::from(c1),
                i128::from(c2),
                i128::from(c3),
                i128::from(c4),
                i128::from(c5),
            ],
        }
    }
}

// The month at which a piece starts.
pub(crate) fn start(pieces: &[Piece], i: usize) -> u32
    requires { i < length pieces.now }
    ensures { result ≡ slice_index (starts_of pieces.now) i }
{
    pieces[i].from
}
