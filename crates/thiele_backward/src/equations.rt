//! What ties the runs of a product to Thiele's equation.

ghost use Rattle.limit_laws.specs.Modulus.{ReservesConverge};
ghost use Rattle.limit_laws.specs.Defect.{NearlySolvesThiele};
ghost use Rattle.rate_bounds.specs.MonthPay.{plan_named};

use limit_laws::{defects_are_small, reserves_converge};
use payment_plan::Which;
use rate_bounds::Admitted;

// Says of a product's runs what the laws say of those of every admissible product, and returns at once.
pub(crate) fn runs_obey_thiele(adm: &Admitted, which: Which)
    ensures modulus { ReservesConverge adm.now (plan_named which adm.now) }
    ensures defect { NearlySolvesThiele adm.now (plan_named which adm.now) }
{
    reserves_converge();
    defects_are_small();
    let _product = adm.product();
}
