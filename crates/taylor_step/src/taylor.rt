//! One step.

ghost use Rattle.std.specs.Prelude.{◌≡◌, ◌^◌, ◌+◌, ◌<◌, ◌≤◌, ℕ, length, sum_by, unsigned_abs};
ghost use Rattle.frac_laws.specs.Fraction.{Fraction};
ghost use Rattle.frac_laws.specs.Norms.{Sup, Sum};
ghost use Rattle.cell_laws.specs.Pairs.{CoupledPair};
ghost use Rattle.cell_laws.specs.Systems.{System};
ghost use Rattle.cell_laws.specs.Tame.{IsTame, IsTamePair};
ghost use Rattle.linear_system.specs.DegreeLimit.{degree_limit, IsConstant};
ghost use Rattle.linear_system.specs.StandsFor.{StandsFor, StandsForPair};
ghost use Rattle.linear_system.specs.StoredSystem.{dim_of};
ghost use Rattle.taylor_step.specs.CanStep.{CanStep, AreAtMost};
ghost use Rattle.taylor_step.specs.ConstantSteps.{IsConstantInX, HasOneNumber, StaysNear};
ghost use Rattle.taylor_step.specs.Enclosures.{Encloses, EnclosesFirst, EnclosesSecond};
ghost use Rattle.taylor_step.specs.RoundedRun.{IsRoundedValue};

use crate::run::run;
use crate::steps::Steps;
use crate::work::Work;
use linear_system::CellSystem;
use std::sync::ledger::Ledger;

/// Goes over one cell: `mid`, in units of 2^-64, becomes the sum of its Taylor coefficients up to the answered
/// degree, each of them rounded down once. It then encloses the Taylor values of every start that it enclosed
/// before, within `grow` of the radius. The degree is the first one at which the coefficients are small for as many
/// powers back as numbers are stored, so that little follows. Takes no memory and refuses nothing.
pub fn step<L: Ledger>(
    sys: &CellSystem,
    mid: &mut [i128],
    work: &mut Work,
    steps: &mut Steps<L>,
) -> u8
    requires mid { length mid.old ≡ dim_of sys.now }
    requires work { work.old ≡ dim_of sys.now }
    requires can { CanStep sys.now mid.old }
    requires count { steps.old + 1 < 2 ^ 63 }
    ensures least { 8 ≤ result }
    ensures most { result ≤ 24 }
    ensures limit { result ≤ degree_limit sys.now mid.old }
    ensures count { steps.new ≡ steps.old + 1 }
    ensures work { work.new ≡ work.old }
    ensures rounded { IsRoundedValue sys.now mid.old result mid.new }

    // Where rates and payments are constant over the cell.
    ensures constant_in_sup { (e : System) (kappa40 : ℕ) → IsConstant sys.now → StandsFor sys.now e
        → IsTame Sup kappa40 e → AreAtMost (2 ^ 65) mid.old → result ≡ 8 }
    ensures constant_in_sum { (e : System) (kappa40 : ℕ) → IsConstant sys.now → dim_of sys.now ≤ 12
        → StandsFor sys.now e → IsTame Sum kappa40 e → sum_by unsigned_abs mid.old ≤ 2 ^ 66 → result ≡ 8 }
    ensures constant_pair { (half : ℕ) (p : CoupledPair) (kappa40 : ℕ) (c : Fraction) → IsConstant sys.now
        → StandsForPair sys.now half p → IsTamePair kappa40 c p → AreAtMost (2 ^ 64 + 2 ^ 45) mid.old
        → result ≤ 9 }

    // From a start of one number its new numbers are then nearer than the radius says.
    ensures constant_near { (e : System) (kappa40 : ℕ) → IsConstant sys.now → IsConstantInX e → StandsFor sys.now e
        → IsTame Sup kappa40 e → HasOneNumber mid.old → StaysNear e mid.old mid.new result }

    // Whatever tame system or pair it is that the stored numbers stand for.
    ensures sup { (e : System) (kappa40 : ℕ) → StandsFor sys.now e → IsTame Sup kappa40 e
        → Encloses Sup e kappa40 mid.old mid.new result }
    ensures sum { (e : System) (kappa40 : ℕ) → dim_of sys.now ≤ 12 → StandsFor sys.now e
        → IsTame Sum kappa40 e → Encloses Sum e kappa40 mid.old mid.new result }
    ensures first_half { (half : ℕ) (p : CoupledPair) (kappa40 : ℕ) (c : Fraction)
        → StandsForPair sys.now half p → IsTamePair kappa40 c p
        → EnclosesFirst p half kappa40 mid.old mid.new result }
    ensures second_half { (half : ℕ) (p : CoupledPair) (kappa40 : ℕ) (c : Fraction)
        → StandsForPair sys.now half p → IsTamePair kappa40 c p
        → EnclosesSecond p half kappa40 c mid.old mid.new result }
{
    let _degree = sys.degree();
    steps.tick();
    run(
        sys,
        mid,
        &mut work.start,
        &mut work.newest,
        &mut work.strips,
    )
}
