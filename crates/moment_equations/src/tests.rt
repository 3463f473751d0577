// Expected values are from closed forms outside the program, between whole numbers.

ghost use Rattle.std.specs.Prelude.{◌≡◌, ◌^◌, ◌<◌, ◌≤◌, pos, All, IfOk, [], ◌∷◌, length};
ghost use Rattle.model_specs.specs.Names.{IsGoodName};
ghost use Rattle.model_specs.specs.Product.{no_pattern};
ghost use Rattle.model_specs.specs.Payments.{constant_step};
ghost use Rattle.payment_plan.specs.Records.{pattern_rule_of, steps_of};

use crate::moments;
use curve_pieces::{Curve, Piece};
use fixed_interval::{MomentTable, Printed};
use payment_plan::{Lump, PatternRule, Plan, StepAmount};
use product_model::Product;
use rate_bounds::{Admitted, admit};
use state_graph::Graph;
use std::alloc::{AllocError, Global};
use std::marker::Brand;
use std::sync::ledger::{Blank, Ledger};
use std::test::Fail;
use taylor_step::Steps;

// From month 0 on, a constant.
fn constant(c: i64) -> Piece {
    Piece {
        from: 0,
        c: [c, 0, 0, 0, 0, 0],
    }
}

fn no_pattern(alloc: Global) -> PatternRule
    ensures { pattern_rule_of result ≡ no_pattern }
{
    PatternRule {
        payers: Vec::new(alloc),
        until: 0,
        every: 0,
    }
}

// The steps of an amount that never changes.
fn steady(alloc: Global, amount: u64) -> Result<Vec<StepAmount>, AllocError>
    requires { amount ≤ 10 ^ 12 }
    ensures { IfOk result (λ steps. steps_of steps.items ≡ constant_step 0 (pos amount) ∷ []) }
{
    let step = StepAmount {
        from: 0,
        c: [amount as i64, 0, 0, 0],
    };
    [step].to_vec(alloc)
}

// A lump of 100 after a month in one state without interest.
fn certain(alloc: Global) -> Result<Product, Fail>
    ensures { IfOk result (λ p. p.months ≡ 1) }
{
    let on = b"on".to_vec(alloc)?;
    let names = vec![in alloc; on]?;
    let graph = Graph::new(alloc, names, Vec::new(alloc))?;
    let interest = Curve::new(alloc, [constant(0)].to_vec(alloc)?, 1)?;
    let lump = Lump {
        month: 1,
        state: 0,
        amount: 100,
    };
    let lumps = [lump].to_vec(alloc)?;
    let pattern = no_pattern(alloc);
    let plan = Plan::new(
        alloc,
        1,
        1,
        Vec::new(alloc),
        Vec::new(alloc),
        lumps,
        pattern,
    )?;
    let name = b"certain".to_vec(alloc)?;
    Ok(Product::new(name, graph, 0, 1, 1, interest, Vec::new(alloc), plan))
}

// A sum of 100000 at death, over ten years.
fn at_death(alloc: Global) -> Result<Plan, AllocError>
    ensures months { IfOk result (λ plan. plan.months ≡ 120) }
    ensures states { IfOk result (λ plan. plan.states ≡ 2) }
    ensures sums { IfOk result (λ plan. length plan.sums ≡ 1) }
{
    let sum = steady(alloc, 100_000)?;
    let sums = vec![in alloc; sum]?;
    let pattern = no_pattern(alloc);
    Plan::new(
        alloc,
        2,
        120,
        sums,
        Vec::new(alloc),
        Vec::new(alloc),
        pattern,
    )
}

// That sum, 1200 a year until death, and of the living -5000 after five years and 50000 after ten.
fn all_kinds(alloc: Global) -> Result<Plan, AllocError>
    ensures months { IfOk result (λ plan. plan.months ≡ 120) }
    ensures states { IfOk result (λ plan. plan.states ≡ 2) }
    ensures sums { IfOk result (λ plan. length plan.sums ≡ 1) }
{
    let sum = steady(alloc, 100_000)?;
    let sums = vec![in alloc; sum]?;
    let rate = steady(alloc, 1200)?;
    let sojourns = vec![in alloc; (0, rate)]?;
    let after_five = Lump {
        month: 60,
        state: 0,
        amount: -5000,
    };
    let after_ten = Lump {
        month: 120,
        state: 0,
        amount: 50_000,
    };
    let lumps = [after_five, after_ten].to_vec(alloc)?;
    let pattern = no_pattern(alloc);
    Plan::new(alloc, 2, 120, sums, sojourns, lumps, pattern)
}

// The payments of all kinds, or the sum at death alone.
fn payments(alloc: Global, all: bool) -> Result<Plan, AllocError>
    ensures months { IfOk result (λ plan. plan.months ≡ 120) }
    ensures states { IfOk result (λ plan. plan.states ≡ 2) }
    ensures sums { IfOk result (λ plan. length plan.sums ≡ 1) }
{
    if all {
        all_kinds(alloc)
    } else {
        at_death(alloc)
    }
}

// Alive and dead, and the way from one to the other.
fn life_and_death(alloc: Global) -> Result<Graph, Fail>
    ensures names { IfOk result (λ graph. All (IsGoodName 24) graph.names) }
    ensures states { IfOk result (λ graph. length graph.names ≡ 2) }
    ensures transitions { IfOk result (λ graph. length graph.edges ≡ 1) }
{
    let on = b"on".to_vec(alloc)?;
    let off = b"off".to_vec(alloc)?;
    let names = vec![in alloc; on, off]?;
    Ok(Graph::new(alloc, names, [(0, 1)].to_vec(alloc)?)?)
}

// A constant over ten years.
fn level(alloc: Global, c: i64) -> Result<Curve, Fail>
    ensures { IfOk result (λ curve. curve.months ≡ 120) }
{
    let pieces = [constant(c)].to_vec(alloc)?;
    Ok(Curve::new(alloc, pieces, 120)?)
}

fn name_of_life(alloc: Global) -> Result<Vec<u8>, AllocError>
    ensures { IfOk result (λ name. IsGoodName 40 name.items) }
{
    b"life".to_vec(alloc)
}

// The curve of its only transition.
fn rates_of_life(alloc: Global) -> Result<Vec<Curve>, Fail>
    ensures months { IfOk result (λ rates. All (λ rate. rate.months ≡ 120) rates.items) }
    ensures count { IfOk result (λ rates. length rates.items ≡ 1) }
{
    let rate = level(alloc, 2)?;
    Ok(vec![in alloc; rate]?)
}

// A life with an intensity of death of 2 %, and interest of 3 %, with these payments.
fn life(alloc: Global, all: bool) -> Result<Product, Fail> {
    let graph = life_and_death(alloc)?;
    let interest = level(alloc, 3)?;
    let plan = payments(alloc, all)?;
    let name = name_of_life(alloc)?;
    let rates = rates_of_life(alloc)?;
    Ok(Product::new(name, graph, 0, 120, 100, interest, rates, plan))
}

fn counted<L: Ledger>(
    alloc: Global,
    adm: &Admitted,
    every: u32,
    blank: Blank,
) -> Result<MomentTable, AllocError>
    requires name { blank.name ≡ L.name }
    requires parts { blank.parts ≡ L.parts }
    requires some { 0 < blank.parts }
    requires every { 0 < every }
{
    let _months = adm.product().months();
    let mut steps = Steps::<L>::open(blank);
    moments(alloc, adm, every, &mut steps)
}

// The moments with a counter of its own.
fn moments_each(alloc: Global, product: Product, every: u32) -> Result<MomentTable, Fail>
    requires { 0 < every }
{
    let admitted = admit(alloc, product)?;
    let table = counted::<Brand>(alloc, &admitted, every, Blank::new(1))?;
    Ok(table)
}

// Whether ends hold the numbers from one to another, and are no further apart than 3.
fn hold(ends: Printed, low: i128, high: i128) -> bool {
    ends.lo <= low && high <= ends.hi && ends.hi <= ends.lo.saturating_add(3)
}

// Whether all ends do, in their order.
fn all_hold(ends: &[Printed], wanted: &[(i128, i128)]) -> bool {
    let mut right = ends.len() == wanted.len();
    for (found, numbers) in ends.iter().zip(wanted) {
        right = right && hold(*found, numbers.0, numbers.1);
    }
    right
}

#[test]
fn a_sure_lump_has_no_variance(rt: HostRuntime) -> Result<(), Fail> {
    let alloc = rt.alloc();
    let table = moments_each(alloc, certain(alloc)?, 1)?;
    assert!(rt; all_hold(&table.first.cells, &[(100_000_000, 100_000_000), (0, 0)]));
    assert!(rt; all_hold(&table.second.cells, &[(10_000, 10_000), (0, 0)]));
    assert!(rt; all_hold(&table.variance.cells, &[(0, 0), (0, 0)]));
    Ok(())
}

#[test]
fn a_sum_at_death(rt: HostRuntime) -> Result<(), Fail> {
    let alloc = rt.alloc();
    let table = moments_each(alloc, life(alloc, false)?, 120)?;
    let nothing = (0, 0);
    assert!(rt;
        all_hold(
            &table.first.cells,
            &[(15_738_773_611, 15_738_773_612), nothing, nothing, nothing],
        )
    );
    assert!(rt;
        all_hold(
            &table.second.cells,
            &[(1_376_677_589, 1_376_677_590), nothing, nothing, nothing],
        )
    );
    assert!(rt;
        all_hold(
            &table.variance.cells,
            &[(1_128_968_594, 1_128_968_595), nothing, nothing, nothing],
        )
    );
    Ok(())
}

#[test]
fn a_rate_a_sum_and_lumps(rt: HostRuntime) -> Result<(), Fail> {
    let alloc = rt.alloc();
    let table = moments_each(alloc, life(alloc, true)?, 60)?;
    let nothing = (0, 0);
    for (cells, at_issue, after_five) in [
        (
            &table.first.cells,
            (51_614_566_848, 51_614_566_849),
            (53_096_789_037, 53_096_789_038),
        ),
        (
            &table.second.cells,
            (2_998_669_775, 2_998_669_776),
            (3_011_487_086, 3_011_487_087),
        ),
        (
            &table.variance.cells,
            (334_606_264, 334_606_265),
            (192_218_080, 192_218_081),
        ),
    ] {
        let wanted = [at_issue, nothing, after_five, nothing, nothing, nothing];
        assert!(rt; all_hold(cells, &wanted));
    }
    Ok(())
}
