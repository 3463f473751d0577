//! Copies of a product's parts.

ghost use Rattle.std.specs.Prelude.{◌≡◌, IfOk, length, map};
ghost use Rattle.payment_plan.specs.Records.{sums_of, sojourns_of, pattern_rule_of};
ghost use Rattle.state_graph.specs.StateGraphs.{texts_of};
ghost use Rattle.product_model.specs.Views.{curve_of, payments_of};

use curve_pieces::Curve;
use payment_plan::{PatternRule, Plan, StepAmount};
use product_model::Product;
use state_graph::Graph;
use std::alloc::{AllocError, Global};

// The names of the states.
fn names_of(alloc: Global, graph: &Graph) -> Result<Vec<Vec<u8>>, AllocError>
    ensures { IfOk result (λ names. texts_of names.items ≡ graph.now.names) }
{
    let mut names = Vec::new(alloc);
    for state in 0..graph.states() {
        names.push(graph.name(state).to_vec(alloc)?)?;
    }
    Ok(names)
}

// The pairs of states of the transitions.
fn pairs_of(alloc: Global, graph: &Graph) -> Result<Vec<(usize, usize)>, AllocError>
    ensures { IfOk result (λ pairs. pairs.items ≡ graph.now.edges) }
{
    let mut pairs = Vec::new(alloc);
    for transition in 0..graph.transitions() {
        pairs.push(graph.pair(transition))?;
    }
    Ok(pairs)
}

// The same states and transitions.
fn graph_again(alloc: Global, graph: &Graph) -> Result<Graph, AllocError>
    ensures { IfOk result (λ copy. copy ≡ graph.now) }
{
    let _states = graph.states();
    Graph::new(alloc, names_of(alloc, graph)?, pairs_of(alloc, graph)?)
}

// The same curve.
fn curve_again(alloc: Global, curve: &Curve) -> Result<Curve, AllocError>
    ensures { IfOk result (λ copy. copy ≡ curve.now) }
{
    let pieces = curve.pieces().to_vec(alloc)?;
    // the pieces of a curve obey rules 8 and 9, so they are not refused
    Ok(Curve::new(alloc, pieces, curve.months()).unwrap())
}

// The same intensities.
fn rates_of(alloc: Global, product: &Product) -> Result<Vec<Curve>, AllocError>
    ensures { IfOk result (λ rates. rates.items ≡ map (λ t. curve_of product.now t.rate) product.now.transitions) }
{
    let mut rates = Vec::new(alloc);
    for transition in 0..product.transitions() {
        rates.push(curve_again(alloc, product.rate(transition))?)?;
    }
    Ok(rates)
}

// The sum of each transition.
fn sums_of(
    alloc: Global,
    plan: &Plan,
    transitions: usize,
) -> Result<Vec<Vec<StepAmount>>, AllocError>
    requires { transitions ≡ length plan.now.sums }
    ensures { IfOk result (λ sums. sums_of sums.items ≡ plan.now.sums) }
{
    let mut sums = Vec::new(alloc);
    for transition in 0..transitions {
        sums.push(plan.sums(transition).to_vec(alloc)?)?;
    }
    Ok(sums)
}

// The states with a sojourn rate, and its steps.
fn sojourns_of(alloc: Global, plan: &Plan) -> Result<Vec<(usize, Vec<StepAmount>)>, AllocError>
    ensures { IfOk result (λ sojourns. sojourns_of sojourns.items ≡ plan.now.sojourns) }
{
    let mut sojourns = Vec::new(alloc);
    for (state, steps) in plan.sojourns() {
        sojourns.push((*state, steps.to_vec(alloc)?))?;
    }
    Ok(sojourns)
}

// The premium pattern.
fn pattern_of(alloc: Global, plan: &Plan) -> Result<PatternRule, AllocError>
    ensures { IfOk result (λ rule. pattern_rule_of rule ≡ plan.now.pattern) }
{
    let pattern = plan.pattern();
    Ok(PatternRule {
        payers: pattern.payers.to_vec(alloc)?,
        until: pattern.until,
        every: pattern.every,
    })
}

// The same payments.
fn plan_again(alloc: Global, product: &Product) -> Result<Plan, AllocError>
    ensures { IfOk result (λ plan. plan ≡ payments_of product.now) }
{
    let plan = product.plan();
    let lumps = plan.lumps().to_vec(alloc)?;
    Plan::new(
        alloc,
        product.graph().states(),
        product.months(),
        sums_of(alloc, plan, product.transitions())?,
        sojourns_of(alloc, plan)?,
        lumps,
        pattern_of(alloc, plan)?,
    )
}

// The name.
fn name_of(alloc: Global, product: &Product) -> Result<Vec<u8>, AllocError>
    ensures { IfOk result (λ name. name.items ≡ product.now.name) }
{
    product.name().to_vec(alloc)
}

/// The same product, but for the force of interest.
pub(crate) fn product_with_interest(
    alloc: Global,
    product: &Product,
    interest: &Curve,
) -> Result<Product, AllocError>
    requires { interest.now.months ≡ product.now.months }
    ensures { IfOk result (λ copy. copy ≡ record product.now { interest = interest.now.pieces }) }
{
    let graph = graph_again(alloc, product.graph())?;
    let interest = curve_again(alloc, interest)?;
    let rates = rates_of(alloc, product)?;
    let plan = plan_again(alloc, product)?;
    let name = name_of(alloc, product)?;
    Ok(Product::new(
        name,
        graph,
        product.start(),
        product.months(),
        product.den(),
        interest,
        rates,
        plan,
    ))
}
