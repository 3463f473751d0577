//! The parts of a product that a change keeps.

ghost use Rattle.std.specs.Prelude.{◌≡◌, IfOk, length, map};
ghost use Rattle.state_graph.specs.StateGraphs.{IsGraph, texts_of};
ghost use Rattle.product_model.specs.Views.{curve_of};
ghost use Rattle.payment_plan.specs.Records.{sums_of, sojourn_of, sojourns_of, lumps_of, pattern_rule_of};

use curve_pieces::Curve;
use payment_plan::{Lump, PatternRule, Plan, StepAmount};
use product_model::Product;
use state_graph::Graph;
use std::alloc::{AllocError, Global};

// The names of the states. They tell a proof that the graph obeys rule 7.
fn names(alloc: Global, graph: &Graph) -> Result<Vec<Vec<u8>>, AllocError>
    ensures names { IfOk result (λ names. texts_of names.items ≡ graph.now.names) }
    ensures lawful { IsGraph graph.now }
{
    let mut names = Vec::new(alloc);
    for state in 0..graph.states() {
        names.push(graph.name(state).to_vec(alloc)?)?;
    }
    Ok(names)
}

// The pairs of states of the transitions.
fn edges(alloc: Global, graph: &Graph) -> Result<Vec<(usize, usize)>, AllocError>
    ensures { IfOk result (λ edges. edges.items ≡ graph.now.edges) }
{
    let mut edges = Vec::new(alloc);
    for transition in 0..graph.transitions() {
        edges.push(graph.pair(transition))?;
    }
    Ok(edges)
}

/// The states and transitions.
pub(crate) fn graph_again(alloc: Global, graph: &Graph) -> Result<Graph, AllocError>
    ensures { IfOk result (λ copy. copy ≡ graph.now) }
{
    Graph::new(alloc, names(alloc, graph)?, edges(alloc, graph)?)
}

/// A curve.
pub(crate) fn curve_again(alloc: Global, curve: &Curve) -> Result<Curve, AllocError>
    ensures { IfOk result (λ copy. copy ≡ curve.now) }
{
    let months = curve.months();
    let pieces = curve.pieces().to_vec(alloc)?;
    // the pieces of a curve obey rules 8 and 9, so they are not refused
    Ok(Curve::new(alloc, pieces, months).unwrap())
}

/// The intensities of the transitions.
pub(crate) fn rates_again(alloc: Global, product: &Product) -> Result<Vec<Curve>, AllocError>
    ensures { IfOk result (λ rates. rates.items ≡ map (λ t. curve_of product.now t.rate) product.now.transitions) }
{
    let mut rates = Vec::new(alloc);
    for transition in 0..product.transitions() {
        rates.push(curve_again(alloc, product.rate(transition))?)?;
    }
    Ok(rates)
}

/// The sums of the transitions.
pub(crate) fn sums(
    alloc: Global,
    plan: &Plan,
    transitions: usize,
) -> Result<Vec<Vec<StepAmount>>, AllocError>
    requires { transitions ≡ length plan.now.sums }
    ensures { IfOk result (λ sums. sums_of sums.items ≡ plan.now.sums) }
{
    let mut sums = Vec::new(alloc);
    for transition in 0..transitions {
        sums.push(plan.sums(transition).to_vec(alloc)?)?;
    }
    Ok(sums)
}

/// A sojourn.
pub(crate) fn sojourn(
    alloc: Global,
    paid: &(usize, Vec<StepAmount>),
) -> Result<(usize, Vec<StepAmount>), AllocError>
    ensures { IfOk result (λ copy. sojourn_of copy ≡ sojourn_of paid.now) }
{
    Ok((paid.0, paid.1.to_vec(alloc)?))
}

/// The sojourns.
pub(crate) fn sojourns(
    alloc: Global,
    plan: &Plan,
) -> Result<Vec<(usize, Vec<StepAmount>)>, AllocError>
    ensures { IfOk result (λ sojourns. sojourns_of sojourns.items ≡ plan.now.sojourns) }
{
    let paid = plan.sojourns();
    let mut sojourns = Vec::new(alloc);
    for i in 0..paid.len() {
        sojourns.push(sojourn(alloc, &paid[i])?)?;
    }
    Ok(sojourns)
}

/// The lumps.
pub(crate) fn lumps(alloc: Global, plan: &Plan) -> Result<Vec<Lump>, AllocError>
    ensures { IfOk result (λ lumps. lumps_of lumps.items ≡ plan.now.lumps) }
{
    plan.lumps().to_vec(alloc)
}

/// The premium pattern.
pub(crate) fn pattern(alloc: Global, plan: &Plan) -> Result<PatternRule, AllocError>
    ensures { IfOk result (λ rule. pattern_rule_of rule ≡ plan.now.pattern) }
{
    let rule = plan.pattern();
    Ok(PatternRule {
        payers: rule.payers.to_vec(alloc)?,
        until: rule.until,
        every: rule.every,
    })
}
