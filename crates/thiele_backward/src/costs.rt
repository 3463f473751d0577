//! The cost of a valuation in steps.

ghost use Rattle.std.specs.Prelude.{◌≡◌, ◌+◌, ◌*◌, ◌≤◌};
ghost use Rattle.named_numbers.specs.Numbers.{cells_of_month};
ghost use Rattle.model_specs.specs.Stretches.{cost};
ghost use Rattle.rate_bounds.specs.MonthPay.{plan_named};
ghost use Rattle.thiele_backward.specs.Costs.{maps_cost, cells_cost};

use constant_months::costs_split;
use payment_plan::Which;
use rate_bounds::Admitted;

// Says of a plan's cost that it is what its maps and the cells of its months take, and returns at once.
pub(crate) fn cost_splits(adm: &Admitted, which: Which)
    ensures split { cost adm.now (plan_named which adm.now) ≡ maps_cost adm.now (plan_named which adm.now)
        + cells_cost adm.now (plan_named which adm.now) adm.now.months }
    ensures few { cost adm.now (plan_named which adm.now) ≤ cells_of_month * adm.now.months }
{
    costs_split();
    let _product = adm.product();
}
