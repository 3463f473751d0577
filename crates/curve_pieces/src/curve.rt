//! Curves made of pieces.

ghost use Rattle.std.specs.Prelude.{◌≡◌, ℕ, ◌+◌, ◌-◌, ◌*◌, ◌^◌, ◌<◌, ◌≤◌, ◌↔◌, IfOk, IsOk, pos};
ghost use Rattle.std.specs.Prelude.{unsigned_abs, slice_index_or};
ghost use Rattle.frac_laws.specs.Polynomials.{all_over};
ghost use Rattle.named_numbers.specs.Numbers.{most_months, cells_of_month, cells_of_year};
ghost use Rattle.model_specs.specs.Curve.{piece_at};
ghost use Rattle.model_specs.specs.Cells.{cells_of_32, curve_cell};
ghost use Rattle.model_specs.specs.RecordRules.{IsBounded, IsBoundedCurve, IsCurve};
ghost use Rattle.model_specs.specs.MonthNumbers.{curve_numerators};
ghost use Rattle.curve_pieces.specs.Directions.{direction_of};
ghost use Rattle.poly_small.specs.WholePolynomials.{value_of_sizes};
ghost use Rattle.curve_pieces.specs.Records.{record_of, records_of, starts_of};
ghost use Rattle.curve_pieces.specs.PiecewiseCurves.{IsAllowed};
ghost use Rattle.curve_pieces.specs.BrokenRules.{StartsInOrder, IsBoundedAt, IsFirstBroken};

use crate::cell::{CellPoly, Dir, origin, turned};
use crate::piece::Piece;
use crate::rules::{first_out_of_order, first_unbounded, have_six};
use crate::search::last_start;
use named_numbers::CELLS_OF_YEAR;
use std::alloc::Global;
use std::marker::Model;

/// Why pieces are no curve.
#[derive(Clone, Copy, Debug, PartialEq, Eq)]
pub enum CurveError {
    /// Rule 8 or 9, and the first piece that breaks it.
    Rule(u8, u32),
    /// Memory ran out.
    Memory,
}

/// A curve over a term of months: its pieces obey rules 8 and 9.
#[derive(Drop)]
pub struct Curve {
    pieces: Vec<Piece>,
    months: u32,
}

impl Model for Curve {
    ghost use Rattle.curve_pieces.specs.Records.{records_of};
    ghost use Rattle.curve_pieces.specs.PiecewiseCurves.{PiecewiseCurve, KeepsRules};

    ghost Value = { PiecewiseCurve };

    ghost view = { λ c. record { pieces = records_of c.pieces.items; months = c.months } };

    ghost invariant = { λ c. KeepsRules (record { pieces = records_of c.pieces.items; months = c.months }) };
}

impl Curve {
    /// The curve with these pieces. Rule 8 is looked at over all pieces before rule 9. Takes no memory of its own.
    pub fn new(_alloc: Global, pieces: Vec<Piece>, months: u32) -> Result<Curve, CurveError>
        requires some_months { 1 ≤ months }
        requires most_months { months ≤ most_months }
        ensures ok { IfOk result (λ curve. curve ≡ record { pieces = records_of pieces.items; months = months }) }
        ensures lawful { IsOk result ↔ IsAllowed (record { pieces = records_of pieces.items; months = months }) }
        ensures rule_8 { (i : ℕ) → (result ≡ Err (CurveError.Rule 8 i))
            ↔ IsFirstBroken (StartsInOrder months (starts_of pieces.items)) i }
        ensures rule_9 { (i : ℕ) → (result ≡ Err (CurveError.Rule 9 i))
            ↔ (((k : ℕ) → StartsInOrder months (starts_of pieces.items) k)
            × IsFirstBroken (IsBoundedAt months (records_of pieces.items)) i) }
    {
        if let Some(index) = first_out_of_order(&pieces, months) {
            return Err(CurveError::Rule(8, index));
        }
        if let Some(index) = first_unbounded(&pieces, months) {
            return Err(CurveError::Rule(9, index));
        }
        have_six(&pieces);
        Ok(Curve { pieces, months })
    }

    /// The term, in months.
    pub fn months(&self) -> u32
        ensures value { result ≡ self.now.months }
        ensures lawful { IsAllowed self.now }
        ensures rule_8 { IsCurve self.now.months self.now.pieces }
        ensures rule_9 { IsBoundedCurve self.now.months self.now.pieces }
    {
        self.months
    }

    /// The pieces, in the file's order.
    pub fn pieces(&self) -> &[Piece]
        ensures { records_of result.now ≡ self.now.pieces }
    {
        &self.pieces
    }

    /// The piece that covers a month. It holds for `month - from + 1` months at least.
    pub fn at(&self, month: u32) -> &Piece
        requires { month < self.now.months }
        ensures covers { record_of result.now ≡ piece_at self.now.pieces month }
        ensures started { result.now.from ≤ month }
        ensures bounded { IsBounded result.now.c (month - result.now.from + 1) }
        ensures term { self.now.months ≤ most_months }
    {
        &self.pieces[last_start(&self.pieces, month)]
    }

    /// The six Bernstein coefficients of the curve over a month, per year: numerators over `2488320 * den`, where the
    /// curve is over `den`. The curve lies between the least and the greatest of them. Takes no memory.
    pub fn month_bernstein(&self, month: u32) -> [i128; 6]
        requires { month < self.now.months }
        ensures numerators { result ≡ curve_numerators self.now.pieces month }
        ensures size { (j : ℕ) → unsigned_abs (slice_index_or result j (pos 0)) < 2 ^ 100 }
    {
        let piece = self.at(month);
        piece.in_years().month_bernstein(month - piece.from)
    }

    /// The curve in a cell of a month, times 1/384, the length of a cell in years: a polynomial of x from 0 to 1, over
    /// `den * 384^6`, where the curve is over `den`. Takes no memory.
    pub fn cell_of(&self, month: u32, cell: u32, dir: Dir) -> CellPoly
        requires month { month < self.now.months }
        requires cell { cell < cells_of_month }
        ensures polynomial { (den : ℕ) → 1 ≤ den
            → all_over (den * cells_of_year ^ 6) result.n
            ≡ curve_cell (cells_of_32 (direction_of dir)) den self.now.pieces month cell }
        ensures size { value_of_sizes result.n 1 < 2 ^ 126 }
    {
        let piece = self.at(month);
        let origin = origin(dir, month - piece.from, cell);
        let n = turned(piece.in_years().in_units(CELLS_OF_YEAR).shift(origin), dir).c;
        CellPoly { n }
    }
}
