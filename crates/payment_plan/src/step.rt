//! Steps of a payment.

ghost use Rattle.std.specs.Prelude.{◌≡◌, ℕ, ◌<◌, ◌≤◌, pos, [], ◌∷◌, ◌++◌, slice_index};
ghost use Rattle.model_specs.specs.Payments.{constant_step};
ghost use Rattle.payment_plan.specs.Records.{record_of, piece_of, steps_of, starts_of};
ghost use Rattle.payment_plan.specs.Steps.{HasGoodSteps, CoversMonth};

use curve_pieces::{Starts, last_start};
use poly_small::Poly;

/// From month `from` on, up to the next step or to the term, `c[0] + c[1] t + c[2] t^2 + c[3] t^3` minor units (per
/// year, for a sojourn), where t is the time in years since the step's start. Coefficients that the file leaves out
/// are 0.
#[derive(Clone, Copy, Debug, PartialEq, Eq)]
pub struct StepAmount {
    pub from: u32,
    pub c: [i64; 4],
}

impl Starts for StepAmount {
    ghost as_piece = { piece_of };

    fn start(&self) -> u32 {
        self.from
    }
}

impl StepAmount {
    // The step from month 0 on of a constant amount.
    pub(crate) fn constant(amount: i64) -> StepAmount
        ensures { record_of result ≡ constant_step 0 amount }
    {
        StepAmount {
            from: 0,
            c: [amount, 0, 0, 0],
        }
    }

    // The polynomial of the years since the start.
    pub(crate) fn in_years(&self) -> Poly
        ensures { result.c ≡ self.now.c ++ pos 0 ∷ pos 0 ∷ [] }
    {
        let [c0, c1, c2, c3] = self.c;
        Poly {
            c: [
                i128::from(c0),
                i128::from(c1),
                i128::from(c2),
                i128::from(c3),
                0,
                0,
            ],
        }
    }
}

// The step that covers a month, and one from month 0 on that pays nothing where there is no step.
pub(crate) fn step_at(steps: &[StepAmount], month: u32) -> StepAmount
    requires { slice_index (starts_of steps.now) 0 ≤ month }
    ensures { (months : ℕ) → HasGoodSteps months (steps_of steps.now) → month < months
        → CoversMonth (steps_of steps.now) month (record_of result) }
{
    if steps.is_empty() {
        StepAmount::constant(0)
    } else {
        steps[last_start(steps, month)]
    }
}
