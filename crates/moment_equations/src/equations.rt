//! What ties the runs of a product to Norberg's equations.

ghost use Rattle.limit_laws.specs.Modulus.{ReservesConverge, SecondMomentsConverge};
ghost use Rattle.limit_laws.specs.Defect.{NearlySolvesThiele, NearlySolvesNorberg};
ghost use Rattle.model_specs.specs.Payments.{payment_plan};

use limit_laws::{defects_are_small, reserves_converge, second_moments_converge};
use rate_bounds::Admitted;

// Says of a product's runs what the laws say of those of every admissible product, and returns at once.
pub(crate) fn runs_obey_norberg(adm: &Admitted)
    ensures first_modulus { ReservesConverge adm.now (payment_plan adm.now) }
    ensures first_defect { NearlySolvesThiele adm.now (payment_plan adm.now) }
    ensures modulus { SecondMomentsConverge adm.now }
    ensures defect { NearlySolvesNorberg adm.now }
{
    reserves_converge();
    second_moments_converge();
    defects_are_small();
    let _product = adm.product();
}
