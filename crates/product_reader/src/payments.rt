//! The payments of a file that breaks no rule.

ghost use Rattle.std.specs.Prelude.{◌≡◌, ◌<◌, ◌≤◌, All, IfOk, length, map};
ghost use Rattle.toml.specs.View.{view, table_view};
ghost use Rattle.named_numbers.specs.Numbers.{most_months};
ghost use Rattle.whole_laws.specs.Whole.{natural_part};
ghost use Rattle.model_specs.specs.RecordRules.{IsWellFormed};
ghost use Rattle.payment_plan.specs.Records.{record_of, steps_of, sums_of, sojourns_of, lump_of, lumps_of};
ghost use Rattle.payment_plan.specs.Records.{pattern_rule_of};
ghost use Rattle.product_file.specs.CurveRules.{start_of};
ghost use Rattle.product_file.specs.LumpRule as lumps;
ghost use Rattle.product_file.specs.LumpRule.{lump_items};
ghost use Rattle.product_file.specs.Members.{item_at};
ghost use Rattle.product_file.specs.PaymentRules.{step_of, sojourn_items};
ghost use Rattle.product_file.specs.TransitionRule.{transition_items};
ghost use Rattle.product_file.specs.Reads as file;
ghost use Rattle.product_reader.specs.Parts.{sum_of};
ghost use Rattle.product_file.specs.PatternRules.{pattern_of, payer_index, payer_items};
ghost use Rattle.product_file.specs.Reads.{product_of};
ghost use Rattle.product_model.specs.Views.{payments_of};

use file_tree::{
    amount_of, is_absent, item, lumps, month_of, payer_index, payers, premium_whole, sojourns,
    start_of, state_index, steps_of, sum_of, transitions, whole_within,
};
use payment_plan::{Lump, PatternRule, Plan, StepAmount};
use std::alloc::{AllocError, Global};
use toml::{Table, Value};

// A step.
fn step_from(tree: &Table, value: &Value) -> StepAmount
    requires { natural_part (start_of (view value.now)) ≤ most_months }
    ensures { record_of result ≡ step_of (table_view tree.now) (view value.now) }
{
    StepAmount {
        from: month_of(start_of(value)),
        c: amount_of(tree, value),
    }
}

// The steps of a payment.
fn steps_from(alloc: Global, tree: &Table, values: &[Value]) -> Result<Vec<StepAmount>, AllocError>
    requires { All (λ d. natural_part (start_of d) ≤ most_months) (map view values.now) }
    ensures { IfOk result (λ steps. steps_of steps.items ≡ map (step_of (table_view tree.now)) (map view values.now)) }
{
    let mut steps = Vec::new(alloc);
    for i in 0..values.len() {
        steps.push(step_from(tree, item(values, i)))?;
    }
    Ok(steps)
}

// The steps of a transition's sum, of which there are none where the file gives no sum.
fn sum_from(alloc: Global, tree: &Table, k: usize) -> Result<Vec<StepAmount>, AllocError>
    requires well_formed { IsWellFormed (product_of (table_view tree.now)) }
    requires inside { k < length (transition_items (table_view tree.now)) }
    ensures { IfOk result (λ steps. steps_of steps.items ≡
        sum_of (table_view tree.now) (item_at (transition_items (table_view tree.now)) k)) }
{
    steps_from(alloc, tree, sum_of(item(transitions(tree), k)))
}

// The sum of each transition.
fn sums_from(alloc: Global, tree: &Table) -> Result<Vec<Vec<StepAmount>>, AllocError>
    requires { IsWellFormed (product_of (table_view tree.now)) }
    ensures { IfOk result (λ sums. sums_of sums.items ≡
        map (sum_of (table_view tree.now)) (transition_items (table_view tree.now))) }
{
    let count = transitions(tree).len();
    let mut sums = Vec::new(alloc);
    for k in 0..count {
        sums.push(sum_from(alloc, tree, k)?)?;
    }
    Ok(sums)
}

// The steps of a sojourn.
fn sojourn_steps_from(alloc: Global, tree: &Table, s: usize) -> Result<Vec<StepAmount>, AllocError>
    requires well_formed { IsWellFormed (product_of (table_view tree.now)) }
    requires inside { s < length (sojourn_items (table_view tree.now)) }
    ensures { IfOk result (λ steps. steps_of steps.items ≡
        (file.sojourn_of (table_view tree.now) (item_at (sojourn_items (table_view tree.now)) s)).steps) }
{
    steps_from(alloc, tree, steps_of(item(sojourns(tree), s)))
}

// The state and the steps of each sojourn.
fn sojourns_from(alloc: Global, tree: &Table) -> Result<Vec<(usize, Vec<StepAmount>)>, AllocError>
    requires { IsWellFormed (product_of (table_view tree.now)) }
    ensures { IfOk result (λ sojourns. sojourns_of sojourns.items ≡ (product_of (table_view tree.now)).sojourns) }
{
    let values = sojourns(tree);
    let mut sojourns = Vec::new(alloc);
    for s in 0..values.len() {
        let state = state_index(tree, "state", item(values, s));
        sojourns.push((state, sojourn_steps_from(alloc, tree, s)?))?;
    }
    Ok(sojourns)
}

// A lump.
fn lump_from(tree: &Table, k: usize) -> Lump
    requires well_formed { IsWellFormed (product_of (table_view tree.now)) }
    requires inside { k < length (lump_items (table_view tree.now)) }
    ensures { lump_of result ≡ lumps.lump_of (table_view tree.now) (item_at (lump_items (table_view tree.now)) k) }
{
    let value = item(lumps(tree), k);
    Lump {
        month: month_of(whole_within(value, "month")),
        state: state_index(tree, "state", value),
        amount: whole_within(value, "amount"),
    }
}

// The lumps, in the file's order.
fn lumps_from(alloc: Global, tree: &Table) -> Result<Vec<Lump>, AllocError>
    requires { IsWellFormed (product_of (table_view tree.now)) }
    ensures { IfOk result (λ lumps. lumps_of lumps.items ≡ (product_of (table_view tree.now)).lumps) }
{
    let count = lumps(tree).len();
    let mut lumps = Vec::new(alloc);
    for k in 0..count {
        lumps.push(lump_from(tree, k))?;
    }
    Ok(lumps)
}

// The payers of the premium table.
fn payers_from(alloc: Global, tree: &Table) -> Result<Vec<usize>, AllocError>
    ensures { IfOk result (λ states. states.items ≡
        map (payer_index (table_view tree.now)) (payer_items (table_view tree.now))) }
{
    let values = payers(tree);
    let mut states = Vec::new(alloc);
    for i in 0..values.len() {
        states.push(payer_index(tree, item(values, i)))?;
    }
    Ok(states)
}

// The premium pattern: one that never pays where the file has none.
fn pattern_from(alloc: Global, tree: &Table) -> Result<PatternRule, AllocError>
    requires { IsWellFormed (product_of (table_view tree.now)) }
    ensures { IfOk result (λ rule. pattern_rule_of rule ≡ pattern_of (table_view tree.now)) }
{
    if is_absent(tree, "premium") {
        return Ok(PatternRule {
            payers: Vec::new(alloc),
            until: 0,
            every: 0,
        });
    }
    Ok(PatternRule {
        payers: payers_from(alloc, tree)?,
        until: month_of(premium_whole(tree, "until")),
        every: month_of(premium_whole(tree, "every")),
    })
}

/// The payments.
pub(crate) fn plan_from(
    alloc: Global,
    tree: &Table,
    states: usize,
    months: u32,
) -> Result<Plan, AllocError>
    requires well_formed { IsWellFormed (product_of (table_view tree.now)) }
    requires states { states ≡ length (product_of (table_view tree.now)).states }
    requires months { months ≡ (product_of (table_view tree.now)).months }
    ensures { IfOk result (λ plan. plan ≡ payments_of (product_of (table_view tree.now))) }
{
    Plan::new(
        alloc,
        states,
        months,
        sums_from(alloc, tree)?,
        sojourns_from(alloc, tree)?,
        lumps_from(alloc, tree)?,
        pattern_from(alloc, tree)?,
    )
}
