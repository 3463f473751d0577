//! Filling a system with the equations of both moments.

ghost use Rattle.std.specs.Prelude.{◌≡◌, ℕ, ◌<◌, ◌≤◌, pos, length, IsTrue};
ghost use Rattle.linear_system.specs.DegreeLimit.{IsConstant};
ghost use Rattle.linear_system.specs.Setting.{HaveSamePlaces};
ghost use Rattle.linear_system.specs.StandsFor.{StandsForPair};
ghost use Rattle.linear_system.specs.StoredSystem.{stored_number};
ghost use Rattle.model_specs.specs.Ledgers.{scale};
ghost use Rattle.model_specs.specs.Payments.{payment_plan};
ghost use Rattle.model_specs.specs.Stretches.{is_constant_month};
ghost use Rattle.model_specs.specs.Systems.{norberg_pair};
ghost use Rattle.model_specs.specs.ValuationRules.{IsAdmissible};
ghost use Rattle.cell_bounds.specs.ScaledSystems.{scaling, scaled_pair};
ghost use Rattle.product_cells.specs.EachCell.{backward_cell};
ghost use Rattle.cell_coeffs.specs.PairRows.{IsSmallPair, IsMadeForMoments, IsStoredSecondRow};
ghost use Rattle.cell_coeffs.specs.Rows.{cell_at};
ghost use Rattle.cell_coeffs.specs.StoredRows.{IsStoredRow};

use crate::job::fill_first;
use crate::numbers::curve_numbers;
use crate::pair_row::fill_second_row;
use crate::row::Place;
use linear_system::CellSystem;
use payment_plan::Which;
use product_model::Product;

// Norberg's equations of the second moments, in the rows behind those of the first ones.
fn fill_second(p: &Product, at: Place, out: &mut CellSystem)
    requires month { at.month < p.now.months }
    requires cell { at.cell < 32 }
    requires scale { at.g ≤ 56 }
    requires small { IsSmallPair (cell_at p.now at.which at.month at.cell) (scaling at.g) }
    requires made { IsMadeForMoments p.now out.old }
    requires none { (i c m : ℕ) → length p.now.states ≤ i → stored_number out.old i c m ≡ pos 0 }
    ensures stands { (i : ℕ) → i < length p.now.states
        → IsStoredSecondRow (cell_at p.now at.which at.month at.cell) (scaling at.g) i out.new }
    ensures first { (i c m : ℕ) → i < length p.now.states
        → stored_number out.new i c m ≡ stored_number out.old i c m }
    ensures places { HaveSamePlaces out.old out.new }
{
    let interest = curve_numbers(p.interest(), p.den(), at.month, at.cell);
    for state in 0..p.graph().states() {
        fill_second_row(p, at, state, &interest, out);
    }
}

/// Makes a system stand for Norberg's equations of a cell: the first moments of the payment plan divided by its 2^g,
/// and behind them the second moments divided by 4^g. Each number of first moments, and of what second moments do to
/// second ones, is at most one unit of 2^-64 off, and each other number at most two; a number that is exactly 0 is
/// stored as 0. Takes no memory.
pub fn fill_moments(p: &Product, g: u32, month: u32, cell: u32, out: &mut CellSystem)
    requires admissible { IsAdmissible p.now }
    requires scale { g ≡ scale p.now (payment_plan p.now) }
    requires most_scale { g ≤ 56 }
    requires month { month < p.now.months }
    requires cell { cell < 32 }
    requires made { IsMadeForMoments p.now out.old }
    ensures stands { StandsForPair out.new (length p.now.states)
        (scaled_pair (scaling g) (norberg_pair (backward_cell p.now (payment_plan p.now) month cell))) }
    ensures first { (i : ℕ) → i < length p.now.states
        → IsStoredRow (backward_cell p.now (payment_plan p.now) month cell) (scaling g) i out.new }
    ensures second { (i : ℕ) → i < length p.now.states
        → IsStoredSecondRow (backward_cell p.now (payment_plan p.now) month cell) (scaling g) i out.new }
    ensures places { HaveSamePlaces out.old out.new }

    // Where nothing varies over the month, no number other than 0 is stored above power 0.
    ensures constant { IsTrue (is_constant_month p.now (payment_plan p.now) month) → IsConstant out.new }
{
    let at = Place {
        which: Which::Benefits,
        g,
        month,
        cell,
    };
    fill_first(p, at, out);
    fill_second(p, at, out);
}
