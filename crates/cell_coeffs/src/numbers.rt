//! Curves and payments of a cell as fine numbers.

ghost use Rattle.std.specs.Prelude.{◌≡◌, ℕ, ◌+◌, ◌-◌, ◌*◌, ◌^◌, ◌<◌, ◌≤◌, pos, ◌*ℤ◌, ◌≤ℤ◌, ◌<ℤ◌, unsigned_abs};
ghost use Rattle.std.specs.Prelude.{slice_index_or, length};
ghost use Rattle.frac_laws.specs.Fraction.{over, size, whole, ◌*ℚ◌, ◌≤ℚ◌};
ghost use Rattle.frac_laws.specs.Lists.{number_at};
ghost use Rattle.frac_laws.specs.Rounding.{floor_of};
ghost use Rattle.model_specs.specs.Cells as cells;
ghost use Rattle.model_specs.specs.RecordRules.{IsBoundedStep};
ghost use Rattle.curve_pieces.specs.Directions.{direction_of};
ghost use Rattle.payment_plan.specs.Records.{record_of};
ghost use Rattle.cell_bounds.specs.ScaledSystems.{scaling};
ghost use Rattle.cell_coeffs.specs.Near.{IsNear, IsWithinUnit};

use crate::fine::{coarse, fine};
use curve_pieces::{Curve, Dir};
use payment_plan::{StepAmount, amount_cell};

// 384 cells are a year.
const YEAR_3: i128 = 384 * 384 * 384;

const YEAR_4: i128 = 384 * YEAR_3;

const YEAR_6: i128 = YEAR_3 * YEAR_3;

// Numerators in units of 2^-70, with zeros up to the eighth power.
fn fine_all(n: &[i128], den: i128) -> [i128; 9]
    requires few { length n.now ≤ 9 }
    requires positive { pos 0 <ℤ den }
    requires small { den <ℤ pos (2 ^ 95) }
    requires within { (m : ℕ) → pos (64 * unsigned_abs (slice_index_or n.now m (pos 0))) ≤ℤ den }
    ensures value { (m : ℕ) → m < length n.now → slice_index_or result m (pos 0)
        ≡ floor_of (slice_index_or n.now m (pos 0) *ℤ pos (2 ^ 70)) den }
    ensures none { (m : ℕ) → length n.now ≤ m → slice_index_or result m (pos 0) ≡ pos 0 }
    ensures size { (m : ℕ) → unsigned_abs (slice_index_or result m (pos 0)) ≤ 2 ^ 64 }
{
    let mut numbers = [0; 9];
    for m in 0..n.len() {
        numbers[m] = fine(n[m], den);
    }
    numbers
}

// Numerators in units of 2^-64, with zeros up to the eighth power.
fn coarse_all(n: &[i128], den: i128) -> [i128; 9]
    requires few { length n.now ≤ 9 }
    requires positive { pos 0 <ℤ den }
    requires small { den <ℤ pos (2 ^ 95) }
    requires within { (m : ℕ) → pos (unsigned_abs (slice_index_or n.now m (pos 0))) ≤ℤ den }
    ensures value { (m : ℕ) → m < length n.now → slice_index_or result m (pos 0)
        ≡ floor_of (slice_index_or n.now m (pos 0) *ℤ pos (2 ^ 64)) den }
    ensures none { (m : ℕ) → length n.now ≤ m → slice_index_or result m (pos 0) ≡ pos 0 }
    ensures size { (m : ℕ) → unsigned_abs (slice_index_or result m (pos 0)) ≤ 2 ^ 64 }
{
    let mut numbers = [0; 9];
    for m in 0..n.len() {
        numbers[m] = coarse(n[m], den);
    }
    numbers
}

// The coefficients of a curve in a cell of a direction, in units of 2^-70.
pub(crate) fn numbers_in(curve: &Curve, den: i64, month: u32, cell: u32, dir: Dir) -> [i128; 9]
    requires month { month < curve.now.months }
    requires cell { cell < 32 }
    requires some_den { pos 1 ≤ℤ den }
    requires largest_den { den ≤ℤ pos (10 ^ 12) }
    requires small { (m : ℕ) → size (number_at (cells.curve_cell (cells.cells_of_32 (direction_of dir))
        (unsigned_abs den) curve.now.pieces month cell) m) ≤ℚ over (pos 1) 64 }
    ensures near { (m : ℕ) → IsNear 2 (number_at (cells.curve_cell (cells.cells_of_32 (direction_of dir))
        (unsigned_abs den) curve.now.pieces month cell) m) (slice_index_or result m (pos 0)) }
    ensures beyond { (m : ℕ) → 6 ≤ m → number_at (cells.curve_cell (cells.cells_of_32 (direction_of dir))
        (unsigned_abs den) curve.now.pieces month cell) m ≡ whole (pos 0) }
    ensures size { (m : ℕ) → unsigned_abs (slice_index_or result m (pos 0)) ≤ 2 ^ 64 }
{
    let n = curve.cell_of(month, cell, dir).n;
    fine_all(&n, i128::from(den) * YEAR_6)
}

// The coefficients of a curve in a backward cell, in units of 2^-70.
pub(crate) fn curve_numbers(curve: &Curve, den: i64, month: u32, cell: u32) -> [i128; 9]
    requires month { month < curve.now.months }
    requires cell { cell < 32 }
    requires some_den { pos 1 ≤ℤ den }
    requires largest_den { den ≤ℤ pos (10 ^ 12) }
    requires small { (m : ℕ) → size (number_at (cells.curve_cell (cells.cells_of_32 cells.Backward)
        (unsigned_abs den) curve.now.pieces month cell) m) ≤ℚ over (pos 1) 64 }
    ensures near { (m : ℕ) → IsNear 2 (number_at (cells.curve_cell (cells.cells_of_32 cells.Backward)
        (unsigned_abs den) curve.now.pieces month cell) m) (slice_index_or result m (pos 0)) }
    ensures beyond { (m : ℕ) → 6 ≤ m → number_at (cells.curve_cell (cells.cells_of_32 cells.Backward)
        (unsigned_abs den) curve.now.pieces month cell) m ≡ whole (pos 0) }
    ensures size { (m : ℕ) → unsigned_abs (slice_index_or result m (pos 0)) ≤ 2 ^ 64 }
{
    numbers_in(curve, den, month, cell, Dir::Backward)
}

// A sojourn rate in a cell, divided by 2^g, in units of 2^-70.
pub(crate) fn sojourn_numbers(step: &StepAmount, g: u32, month: u32, cell: u32) -> [i128; 9]
    requires started { step.now.from ≤ month }
    requires term { month < 1200 }
    requires cell { cell < 32 }
    requires bounded { IsBoundedStep step.now.c (month - step.now.from + 1) }
    requires scale { g ≤ 56 }
    requires small { (m : ℕ) → size (scaling g *ℚ number_at (cells.per_cell (cells.cells_of_32 cells.Backward)
        (cells.amount_cell (cells.cells_of_32 cells.Backward) (record_of step.now) month cell)) m) ≤ℚ over (pos 1) 64 }
    ensures near { (m : ℕ) → IsNear 2 (scaling g *ℚ number_at (cells.per_cell (cells.cells_of_32 cells.Backward)
        (cells.amount_cell (cells.cells_of_32 cells.Backward) (record_of step.now) month cell)) m)
        (slice_index_or result m (pos 0)) }
    ensures size { (m : ℕ) → unsigned_abs (slice_index_or result m (pos 0)) ≤ 2 ^ 64 }
{
    let n = amount_cell(step, month, cell);
    fine_all(&n, YEAR_4 * 2i128.pow(g))
}

// A transition's sum in a cell, divided by 2^g, in units of 2^-64.
pub(crate) fn sum_numbers(step: &StepAmount, g: u32, month: u32, cell: u32) -> [i128; 9]
    requires started { step.now.from ≤ month }
    requires term { month < 1200 }
    requires cell { cell < 32 }
    requires bounded { IsBoundedStep step.now.c (month - step.now.from + 1) }
    requires scale { g ≤ 56 }
    requires small { (m : ℕ) → size (scaling g *ℚ number_at
        (cells.amount_cell (cells.cells_of_32 cells.Backward) (record_of step.now) month cell) m) ≤ℚ whole (pos 1) }
    ensures near { (m : ℕ) → IsWithinUnit (scaling g *ℚ number_at
        (cells.amount_cell (cells.cells_of_32 cells.Backward) (record_of step.now) month cell) m)
        (slice_index_or result m (pos 0)) }
    ensures size { (m : ℕ) → unsigned_abs (slice_index_or result m (pos 0)) ≤ 2 ^ 64 }
{
    let n = amount_cell(step, month, cell);
    coarse_all(&n, YEAR_3 * 2i128.pow(g))
}
