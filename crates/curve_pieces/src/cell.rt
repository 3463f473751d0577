//! Cells of a month.

ghost use Rattle.std.specs.Prelude.{◌≡◌, ℕ, ◌+◌, ◌*◌, ◌^◌, ◌<◌, ◌≤◌};
ghost use Rattle.named_numbers.specs.Numbers.{most_months, cells_of_month};
ghost use Rattle.frac_laws.specs.Fraction.{whole};
ghost use Rattle.frac_laws.specs.Polynomials.{all_over, stretched};
ghost use Rattle.poly_small.specs.WholePolynomials.{value_of_sizes};
ghost use Rattle.model_specs.specs.Cells.{origin_of, sign_of};
ghost use Rattle.curve_pieces.specs.Directions.{direction_of};

use named_numbers::CELLS_OF_MONTH;
use poly_small::Poly;

/// Which way x runs over a cell: forward from its start, or backward from its end into the past.
#[derive(Clone, Copy, Debug, PartialEq, Eq)]
pub enum Dir {
    Forward,
    Backward,
}

/// A polynomial `n[0] + n[1] x + .. + n[5] x^5` for x from 0 to 1, over `den * 384^6`.
#[derive(Clone, Copy, Debug, PartialEq, Eq)]
pub struct CellPoly {
    pub n: [i128; 6],
}

// Where x is 0, in cells since the start of a month that is 0.
pub(crate) fn origin(dir: Dir, month: u32, cell: u32) -> u32
    requires month { month ≤ most_months }
    requires cell { cell < cells_of_month }
    ensures value { result ≡ origin_of (direction_of dir) (month * cells_of_month + cell) }
    ensures within { result ≤ cells_of_month * (month + 1) }
{
    match dir {
        Dir::Forward => month * CELLS_OF_MONTH + cell,
        Dir::Backward => month * CELLS_OF_MONTH + cell + 1,
    }
}

// The polynomial with x in the direction of a cell.
pub(crate) fn turned(poly: Poly, dir: Dir) -> Poly
    requires { value_of_sizes poly.c 1 < 2 ^ 126 }
    ensures polynomial { (den : ℕ) → all_over den result.c
        ≡ stretched (whole (sign_of (direction_of dir))) (all_over den poly.c) }
    ensures size { value_of_sizes result.c 1 ≡ value_of_sizes poly.c 1 }
{
    match dir {
        Dir::Forward => poly,
        Dir::Backward => poly.reflect(),
    }
}
