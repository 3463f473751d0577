//! What ties the runs of a product to Kolmogorov's equation.

ghost use Rattle.limit_laws.specs.Modulus.{ProbabilitiesConverge};
ghost use Rattle.limit_laws.specs.Defect.{NearlySolvesKolmogorov};

use limit_laws::{defects_are_small, probabilities_converge};
use rate_bounds::Admitted;

// Says of a product's runs what the laws say of those of every admissible product, and returns at once.
pub(crate) fn runs_obey_kolmogorov(adm: &Admitted)
    ensures modulus { ProbabilitiesConverge adm.now }
    ensures defect { NearlySolvesKolmogorov adm.now }
{
    probabilities_converge();
    defects_are_small();
    let _product = adm.product();
}
