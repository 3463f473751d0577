//! What the parts of a product keep by themselves.

ghost use Rattle.std.specs.Prelude.{All};
ghost use Rattle.state_graph.specs.StateGraphs.{IsGraph};
ghost use Rattle.payment_plan.specs.Payments.{IsAllowed};
ghost use Rattle.product_model.specs.LawfulParts.{IsLawfulCurve};

use curve_pieces::Curve;
use payment_plan::Plan;
use state_graph::Graph;

/// A graph obeys rule 7.
pub(crate) fn graph_is_lawful(graph: &Graph)
    ensures { IsGraph graph.now }
{
    let _states = graph.states();
}

/// A curve obeys rules 8 and 9.
pub(crate) fn curve_is_lawful(curve: &Curve)
    ensures { IsLawfulCurve curve.now }
{
    let _months = curve.months();
}

/// So do many.
pub(crate) fn curves_are_lawful(curves: &[Curve])
    ensures { All IsLawfulCurve curves.now }
{
    for curve in curves {
        curve_is_lawful(curve);
    }
}

/// A plan obeys rules 10 to 14.
pub(crate) fn plan_is_lawful(plan: &Plan)
    ensures { IsAllowed plan.now }
{
    let _lumps = plan.lumps();
}
