//! Filling a system.

ghost use Rattle.std.specs.Prelude.{◌≡◌, ℕ, ◌<◌, ◌≤◌, pos, length, IsTrue};
ghost use Rattle.linear_system.specs.DegreeLimit.{IsConstant};
ghost use Rattle.linear_system.specs.Setting.{HaveSamePlaces};
ghost use Rattle.linear_system.specs.StandsFor.{StandsFor};
ghost use Rattle.linear_system.specs.StoredSystem.{stored_number};
ghost use Rattle.model_specs.specs.Ledgers.{scale};
ghost use Rattle.model_specs.specs.Stretches.{is_constant_month};
ghost use Rattle.model_specs.specs.Systems.{thiele_system};
ghost use Rattle.model_specs.specs.ValuationRules.{IsAdmissible};
ghost use Rattle.payment_plan.specs.Payments.{plan_of};
ghost use Rattle.product_model.specs.Views.{payments_of};
ghost use Rattle.cell_bounds.specs.ScaledSystems.{scaling, scaled_system};
ghost use Rattle.cell_coeffs.specs.Rows.{cell_at, IsSmallCell, HasFirstPlaces, IsMadeForFirst};
ghost use Rattle.cell_coeffs.specs.StoredRows.{IsStoredRow};
ghost use Rattle.cell_coeffs.specs.Jobs.{which_of};

use crate::numbers::curve_numbers;
use crate::row::{Place, fill_row};
use linear_system::CellSystem;
use payment_plan::Which;
use product_model::Product;

/// Which system of a product is wanted.
#[derive(Clone, Copy, Debug, PartialEq, Eq)]
pub enum Job {
    /// Thiele's, for the first moments of a plan.
    First(Which),
}

// The plan of a job.
fn plan_of_job(job: Job) -> Which
    ensures { result ≡ which_of job }
{
    match job {
        Job::First(which) => which,
    }
}

// Thiele's system, in the first rows.
pub(crate) fn fill_first(p: &Product, at: Place, out: &mut CellSystem)
    requires month { at.month < p.now.months }
    requires cell { at.cell < 32 }
    requires scale { at.g ≤ 56 }
    requires small { IsSmallCell (cell_at p.now at.which at.month at.cell) (scaling at.g) }
    requires made { HasFirstPlaces p.now out.old }
    ensures stands { (i : ℕ) → i < length p.now.states
        → IsStoredRow (cell_at p.now at.which at.month at.cell) (scaling at.g) i out.new }
    ensures rest { (i c m : ℕ) → length p.now.states ≤ i → stored_number out.new i c m ≡ pos 0 }
    ensures places { HaveSamePlaces out.old out.new }
{
    out.clear();
    let interest = curve_numbers(p.interest(), p.den(), at.month, at.cell);
    for state in 0..p.graph().states() {
        fill_row(p, at, state, &interest, out);
    }
}

/// Makes a system stand for the equations of a cell, with values divided by the plan's 2^g: each number is at most one
/// unit of 2^-64 off, those of the transition sums too, and a number that is exactly 0 is stored as 0. Takes no memory.
pub fn fill(p: &Product, g: u32, month: u32, cell: u32, job: Job, out: &mut CellSystem)
    requires admissible { IsAdmissible p.now }
    requires scale { g ≡ scale p.now (plan_of (which_of job) (payments_of p.now)) }
    requires most_scale { g ≤ 56 }
    requires month { month < p.now.months }
    requires cell { cell < 32 }
    requires made { IsMadeForFirst p.now out.old }
    ensures stands { StandsFor out.new (scaled_system (scaling g)
        (thiele_system (cell_at p.now (which_of job) month cell))) }
    ensures rows { (i : ℕ) → i < length p.now.states
        → IsStoredRow (cell_at p.now (which_of job) month cell) (scaling g) i out.new }
    ensures places { HaveSamePlaces out.old out.new }

    // Where nothing varies over the month, no number other than 0 is stored above power 0.
    ensures constant { IsTrue (is_constant_month p.now (plan_of (which_of job) (payments_of p.now)) month)
        → IsConstant out.new }
{
    let at = Place {
        which: plan_of_job(job),
        g,
        month,
        cell,
    };
    fill_first(p, at, out);
}
