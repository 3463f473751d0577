//! The payments of the joint record: those of the first life, while the second one is in its start state.

ghost use Rattle.std.specs.Prelude.{◌≡◌, ◌<◌, All, IfOk, length, map};
ghost use Rattle.payment_plan.specs.Records.{sums_of, steps_of, sojourn_of, sojourns_of, lump_of, lumps_of};
ghost use Rattle.payment_plan.specs.Records.{pattern_rule_of};
ghost use Rattle.product_model.specs.Views.{payments_of};
ghost use Rattle.joint_life.specs.Joining.{CanJoin};
ghost use Rattle.joint_life.specs.JointRecord.{joint_of, pair_of};
ghost use Rattle.joint_life.specs.Moves.{IsMove, moves_of, transition_of};

use crate::laws::joint_records_are_well_formed;
use crate::moves::{Life, Move};
use payment_plan::{Lump, PatternRule, Plan, StepAmount};
use product_model::Product;
use std::alloc::{AllocError, Global};

// The steps of the sum that a move pays.
fn sum(alloc: Global, a: &Product, b: &Product, at: Move) -> Result<Vec<StepAmount>, AllocError>
    requires { IsMove a.now b.now at }
    ensures { IfOk result (λ steps. steps_of steps.items ≡ (transition_of a.now b.now at).sum) }
{
    match at.life {
        Life::First if at.pair % b.graph().states() == b.start() => {
            a.plan().sums(at.transition).to_vec(alloc)
        }
        _ => Ok(Vec::new(alloc)),
    }
}

// The sums of all moves.
fn sums(
    alloc: Global,
    a: &Product,
    b: &Product,
    moves: &[Move],
) -> Result<Vec<Vec<StepAmount>>, AllocError>
    requires { All (IsMove a.now b.now) moves.now }
    ensures { IfOk result (λ sums. sums_of sums.items ≡ map (λ at. (transition_of a.now b.now at).sum) moves.now) }
{
    let mut sums = Vec::new(alloc);
    for i in 0..moves.len() {
        sums.push(sum(alloc, a, b, moves[i])?)?;
    }
    Ok(sums)
}

/// The pair of a state of the first life with the start of the second.
pub(crate) fn with_start(a: &Product, b: &Product, state: usize) -> usize
    requires lives { CanJoin a.now b.now }
    requires inside { state < length a.now.states }
    ensures { result ≡ pair_of b.now state b.now.start }
{
    state * b.graph().states() + b.start()
}

// A sojourn of the first life.
fn sojourn(
    alloc: Global,
    a: &Product,
    b: &Product,
    paid: &(usize, Vec<StepAmount>),
) -> Result<(usize, Vec<StepAmount>), AllocError>
    requires lives { CanJoin a.now b.now }
    requires inside { paid.now.0 < length a.now.states }
    ensures { IfOk result (λ sojourn. sojourn_of sojourn
        ≡ record { state = pair_of b.now paid.now.0 b.now.start; steps = (sojourn_of paid.now).steps }) }
{
    Ok((with_start(a, b, paid.0), paid.1.to_vec(alloc)?))
}

// The sojourns of the first life.
fn sojourns(
    alloc: Global,
    a: &Product,
    b: &Product,
) -> Result<Vec<(usize, Vec<StepAmount>)>, AllocError>
    requires { CanJoin a.now b.now }
    ensures { IfOk result (λ sojourns. sojourns_of sojourns.items ≡ (joint_of a.now b.now).sojourns) }
{
    let paid = a.plan().sojourns();
    let mut sojourns = Vec::new(alloc);
    for i in 0..paid.len() {
        sojourns.push(sojourn(alloc, a, b, &paid[i])?)?;
    }
    Ok(sojourns)
}

// A lump of the first life.
fn lump(a: &Product, b: &Product, paid: &Lump) -> Lump
    requires lives { CanJoin a.now b.now }
    requires inside { paid.now.state < length a.now.states }
    ensures { lump_of result ≡ record {
      month = paid.now.month;
      state = pair_of b.now paid.now.state b.now.start;
      amount = paid.now.amount;
    } }
{
    Lump {
        month: paid.month,
        state: with_start(a, b, paid.state),
        amount: paid.amount,
    }
}

// The lumps of the first life.
fn lumps(alloc: Global, a: &Product, b: &Product) -> Result<Vec<Lump>, AllocError>
    requires { CanJoin a.now b.now }
    ensures { IfOk result (λ lumps. lumps_of lumps.items ≡ (joint_of a.now b.now).lumps) }
{
    let paid = a.plan().lumps();
    let mut lumps = Vec::new(alloc);
    for i in 0..paid.len() {
        lumps.push(lump(a, b, &paid[i]))?;
    }
    Ok(lumps)
}

// The payers of the first life.
fn payers(alloc: Global, a: &Product, b: &Product) -> Result<Vec<usize>, AllocError>
    requires { CanJoin a.now b.now }
    ensures { IfOk result (λ payers. payers.items ≡ (joint_of a.now b.now).pattern.payers) }
{
    let paying = &a.plan().pattern().payers;
    let mut payers = Vec::new(alloc);
    for i in 0..paying.len() {
        payers.push(with_start(a, b, paying[i]))?;
    }
    Ok(payers)
}

// The premium pattern of the first life.
fn pattern(alloc: Global, a: &Product, b: &Product) -> Result<PatternRule, AllocError>
    requires { CanJoin a.now b.now }
    ensures { IfOk result (λ rule. pattern_rule_of rule ≡ (joint_of a.now b.now).pattern) }
{
    let rule = a.plan().pattern();
    Ok(PatternRule {
        payers: payers(alloc, a, b)?,
        until: rule.until,
        every: rule.every,
    })
}

/// The payments of the joint record.
pub(crate) fn plan(
    alloc: Global,
    a: &Product,
    b: &Product,
    moves: &[Move],
) -> Result<Plan, AllocError>
    requires lives { CanJoin a.now b.now }
    requires moves { moves.now ≡ moves_of a.now b.now }
    requires are_moves { All (IsMove a.now b.now) moves.now }
    ensures { IfOk result (λ plan. plan ≡ payments_of (joint_of a.now b.now)) }
{
    joint_records_are_well_formed();
    let pairs = a.graph().states() * b.graph().states();
    Plan::new(
        alloc,
        pairs,
        a.months(),
        sums(alloc, a, b, moves)?,
        sojourns(alloc, a, b)?,
        lumps(alloc, a, b)?,
        pattern(alloc, a, b)?,
    )
}
