//! Amounts in a cell of a month.

ghost use Rattle.std.specs.Prelude.{◌≡◌, ◌+◌, ◌-◌, ◌^◌, ◌<◌, ◌≤◌, pos, ◌*ℤ◌, [], ◌∷◌, ◌++◌};
ghost use Rattle.frac_laws.specs.Polynomials.{all_over};
ghost use Rattle.poly_small.specs.WholePolynomials.{value_of_sizes, in_units_of};
ghost use Rattle.named_numbers.specs.Numbers.{most_months, cells_of_month, cells_of_year};
ghost use Rattle.model_specs.specs.Cells as cells;
ghost use Rattle.model_specs.specs.RecordRules.{IsBoundedStep};
ghost use Rattle.payment_plan.specs.Records.{record_of};

use crate::step::StepAmount;
use named_numbers::{CELLS_OF_MONTH, CELLS_OF_YEAR};
use poly_small::Poly;

// c * factor
fn times(c: i64, factor: u32) -> i128
    ensures { result ≡ c *ℤ pos factor }
{
    i128::from(c) * i128::from(factor)
}

// The polynomial of the cells since the start, over 384^3.
fn in_cells(s: &StepAmount) -> Poly
    ensures { result.c ≡ in_units_of cells_of_year s.now.c ++ pos 0 ∷ pos 0 ∷ [] }
{
    let [c0, c1, c2, c3] = s.c;
    Poly {
        c: [
            times(c0, CELLS_OF_YEAR * CELLS_OF_YEAR * CELLS_OF_YEAR),
            times(c1, CELLS_OF_YEAR * CELLS_OF_YEAR),
            times(c2, CELLS_OF_YEAR),
            times(c3, 1),
            0,
            0,
        ],
    }
}

/// The amount of a step in a cell of a month, counted from the cell's end into the past: a polynomial of x from 0 to
/// 1, in minor units (per year, for a sojourn) over `384^3`. Takes no memory.
pub fn amount_cell(s: &StepAmount, month: u32, cell: u32) -> [i128; 4]
    requires started { s.now.from ≤ month }
    requires term { month < most_months }
    requires cell { cell < cells_of_month }
    requires bounded { IsBoundedStep s.now.c (month - s.now.from + 1) }
    ensures polynomial { all_over (cells_of_year ^ 3) result
        ≡ cells.amount_cell (cells.cells_of_32 cells.Backward) (record_of s.now) month cell }
    ensures size { value_of_sizes result 1 < 2 ^ 104 }
{
    let origin = (month - s.from) * CELLS_OF_MONTH + cell + 1;
    let [c0, c1, c2, c3, _, _] = in_cells(s).shift(origin).reflect().c;
    [c0, c1, c2, c3]
}
