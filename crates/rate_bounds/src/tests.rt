ghost use Rattle.std.specs.Prelude.{◌≡◌, ◌^◌, ◌<◌, ◌≤◌, pos, IfOk, [], ◌∷◌, length};
ghost use Rattle.model_specs.specs.Product.{no_pattern};
ghost use Rattle.model_specs.specs.Payments.{constant_step};
ghost use Rattle.payment_plan.specs.Records.{pattern_rule_of, steps_of};

use crate::{AdmitError, Admitted, MonthBounds, MonthCurves, admit, month_bounds, month_curves};
use curve_pieces::{Curve, Piece};
use ledger_laws::admissible_products_obey;
use payment_plan::{Lump, PatternRule, Plan, StepAmount, Which};
use product_model::Product;
use rule_breaks::RuleBreak;
use state_graph::Graph;
use std::alloc::{AllocError, Global};
use std::test::Fail;

// From month 0 on, a constant.
fn constant(c: i64) -> Piece {
    Piece {
        from: 0,
        c: [c, 0, 0, 0, 0, 0],
    }
}

fn no_pattern(alloc: Global) -> PatternRule
    ensures { pattern_rule_of result ≡ no_pattern }
{
    PatternRule {
        payers: Vec::new(alloc),
        until: 0,
        every: 0,
    }
}

// One state over a year, interest of 1/20, and 10000 at the term.
fn discounted(alloc: Global) -> Result<Product, Fail>
    ensures { IfOk result (λ p. p.months ≡ 12) }
{
    let on = b"on".to_vec(alloc)?;
    let names = vec![in alloc; on]?;
    let graph = Graph::new(alloc, names, Vec::new(alloc))?;
    let interest = Curve::new(alloc, [constant(1)].to_vec(alloc)?, 12)?;
    let lump = Lump {
        month: 12,
        state: 0,
        amount: 10_000,
    };
    let lumps = [lump].to_vec(alloc)?;
    let pattern = no_pattern(alloc);
    let plan = Plan::new(
        alloc,
        1,
        12,
        Vec::new(alloc),
        Vec::new(alloc),
        lumps,
        pattern,
    )?;
    let name = b"discounted".to_vec(alloc)?;
    Ok(Product::new(name, graph, 0, 12, 20, interest, Vec::new(alloc), plan))
}

// Two states, and an intensity of 1 - t from the first to the second over 13 months.
fn falling(alloc: Global) -> Result<Product, Fail>
    ensures { IfOk result (λ p. p.months ≡ 13) }
{
    let on = b"on".to_vec(alloc)?;
    let off = b"off".to_vec(alloc)?;
    let names = vec![in alloc; on, off]?;
    let graph = Graph::new(alloc, names, [(0, 1)].to_vec(alloc)?)?;
    let interest = Curve::new(alloc, [constant(0)].to_vec(alloc)?, 13)?;
    let rate = Piece {
        from: 0,
        c: [1, -1, 0, 0, 0, 0],
    };
    let rate = Curve::new(alloc, [rate].to_vec(alloc)?, 13)?;
    let sums = vec![in alloc; Vec::new(alloc)]?;
    let pattern = no_pattern(alloc);
    let plan = Plan::new(
        alloc,
        2,
        13,
        sums,
        Vec::new(alloc),
        Vec::new(alloc),
        pattern,
    )?;
    let name = b"falling".to_vec(alloc)?;
    let rates = vec![in alloc; rate]?;
    Ok(Product::new(name, graph, 0, 13, 1, interest, rates, plan))
}

// The steps of an amount that never changes.
fn steady(alloc: Global, amount: u64) -> Result<Vec<StepAmount>, AllocError>
    requires { amount ≤ 10 ^ 12 }
    ensures { IfOk result (λ steps. steps_of steps.items ≡ constant_step 0 (pos amount) ∷ []) }
{
    let step = StepAmount {
        from: 0,
        c: [amount as i64, 0, 0, 0],
    };
    [step].to_vec(alloc)
}

// A rate of 384 in one state over a year.
fn flat_plan(alloc: Global) -> Result<Plan, AllocError>
    ensures months { IfOk result (λ plan. plan.months ≡ 12) }
    ensures states { IfOk result (λ plan. plan.states ≡ 1) }
    ensures sums { IfOk result (λ plan. length plan.sums ≡ 0) }
{
    let steps = steady(alloc, 384)?;
    let sojourns = vec![in alloc; (0, steps)]?;
    let sums = Vec::new(alloc);
    let lumps = Vec::new(alloc);
    let pattern = no_pattern(alloc);
    Plan::new(alloc, 1, 12, sums, sojourns, lumps, pattern)
}

// One state with these payments and without interest.
fn flat(alloc: Global) -> Result<Product, Fail>
    ensures { IfOk result (λ p. p.months ≡ 12) }
{
    let on = b"on".to_vec(alloc)?;
    let names = vec![in alloc; on]?;
    let graph = Graph::new(alloc, names, Vec::new(alloc))?;
    let interest = Curve::new(alloc, [constant(0)].to_vec(alloc)?, 12)?;
    let plan = flat_plan(alloc)?;
    let name = b"flat".to_vec(alloc)?;
    let rates = Vec::new(alloc);
    Ok(Product::new(name, graph, 0, 12, 1, interest, rates, plan))
}

// One amount as the rate in both states and as the sum of both transitions, over a century.
fn exchange_plan(alloc: Global, amount: u64) -> Result<Plan, AllocError>
    requires { amount ≤ 10 ^ 12 }
    ensures months { IfOk result (λ plan. plan.months ≡ 1200) }
    ensures states { IfOk result (λ plan. plan.states ≡ 2) }
    ensures sums { IfOk result (λ plan. length plan.sums ≡ 2) }
{
    let there = steady(alloc, amount)?;
    let back = steady(alloc, amount)?;
    let sums = vec![in alloc; there, back]?;
    let first = steady(alloc, amount)?;
    let second = steady(alloc, amount)?;
    let sojourns = vec![in alloc; (0, first), (1, second)]?;
    let lumps = Vec::new(alloc);
    let pattern = no_pattern(alloc);
    Plan::new(alloc, 2, 1200, sums, sojourns, lumps, pattern)
}

// Two states that change into each other at a rate of 2, with interest of -1/50 and these payments.
fn exchange(alloc: Global, amount: u64) -> Result<Product, Fail>
    requires { amount ≤ 10 ^ 12 }
    ensures { IfOk result (λ p. p.months ≡ 1200) }
{
    let on = b"on".to_vec(alloc)?;
    let off = b"off".to_vec(alloc)?;
    let names = vec![in alloc; on, off]?;
    let graph = Graph::new(alloc, names, [(0, 1), (1, 0)].to_vec(alloc)?)?;
    let interest = Curve::new(alloc, [constant(-1)].to_vec(alloc)?, 1200)?;
    let there = Curve::new(alloc, [constant(100)].to_vec(alloc)?, 1200)?;
    let back = Curve::new(alloc, [constant(100)].to_vec(alloc)?, 1200)?;
    let plan = exchange_plan(alloc, amount)?;
    let name = b"exchange".to_vec(alloc)?;
    let rates = vec![in alloc; there, back]?;
    Ok(Product::new(name, graph, 0, 1200, 50, interest, rates, plan))
}

// The bounds of a month without the table.
fn bounds_anew(admitted: &Admitted, month: u32) -> MonthBounds
    requires { month < admitted.now.months }
{
    admissible_products_obey();
    month_bounds(admitted.product(), month)
}

#[test]
fn a_discounted_lump(rt: HostRuntime) -> Result<(), Fail> {
    let alloc = rt.alloc();
    let admitted = admit(alloc, discounted(alloc)?)?;
    // worked by hand
    let wanted = MonthBounds {
        rho: 0,
        iota: 2_488_320,
        nu: 0,
        kappa40: 94_372,
        pay1024: 0,
        pattern1024: 0,
    };
    assert_eq!(rt; *admitted.bounds(11), wanted);
    assert_eq!(rt; bounds_anew(&admitted, 11), wanted);
    assert_eq!(rt; admitted.bound1024(Which::Benefits), 10_240_384);
    assert_eq!(rt; admitted.scale(Which::Benefits), 14);
    assert_eq!(rt; admitted.radius(0), 393_599);
    assert_eq!(rt; admitted.radius_forward(12), 393_599);
    assert_eq!(rt; admitted.radius_second(0), 393_604);
    Ok(())
}

#[test]
fn a_constant_rate(rt: HostRuntime) -> Result<(), Fail> {
    let alloc = rt.alloc();
    let admitted = admit(alloc, flat(alloc)?)?;
    // worked by hand
    assert_eq!(rt; admitted.bounds(0).kappa40, 0);
    assert_eq!(rt; admitted.bounds(0).pay1024, 2048);
    assert_eq!(rt; admitted.bound1024(Which::Benefits), 786_432);
    assert_eq!(rt; admitted.scale(Which::Benefits), 10);
    assert_eq!(rt; admitted.radius(0), 393_216);
    assert_eq!(rt; admitted.radius_second(0), 687_360);
    assert_eq!(rt; admitted.scale(Which::Pattern), 0);
    Ok(())
}

#[test]
fn a_falling_intensity(rt: HostRuntime) -> Result<(), Fail> {
    let alloc = rt.alloc();
    let product = falling(alloc)?;
    // numerators of 1 - t over 2488320
    let wanted = MonthCurves {
        rho: 2_488_320,
        high: 0,
        low: 0,
        least: 2_280_960,
    };
    assert_eq!(rt; month_curves(&product, 0), wanted);
    let wanted = MonthCurves {
        rho: 207_360,
        high: 0,
        low: 0,
        least: 0,
    };
    assert_eq!(rt; month_curves(&product, 11), wanted);
    let broken = RuleBreak {
        rule: 16,
        place: 12,
    };
    assert_eq!(rt; admit(alloc, product).err(), Some(AdmitError::Rule(broken)));
    Ok(())
}

#[test]
fn the_largest_bound(rt: HostRuntime) -> Result<(), Fail> {
    let alloc = rt.alloc();
    let admitted = admit(alloc, exchange(alloc, 396_094_500_958)?)?;
    // from whole numbers outside the program
    assert_eq!(rt; admitted.bounds(0).kappa40, 221_921_744);
    assert_eq!(rt; admitted.bounds(0).pay1024, 6_337_512_015_328);
    assert_eq!(rt;
        admitted.bound1024(Which::Benefits),
        73_786_976_294_711_475_161
    );
    assert_eq!(rt; admitted.scale(Which::Benefits), 56);
    assert_eq!(rt; admitted.radius(0), 11_775_970_266);
    Ok(())
}

#[test]
fn a_bound_that_is_too_large(rt: HostRuntime) -> Result<(), Fail> {
    let alloc = rt.alloc();
    let broken = RuleBreak { rule: 18, place: 0 };
    let refused = admit(alloc, exchange(alloc, 396_094_500_959)?).err();
    assert_eq!(rt; refused, Some(AdmitError::Rule(broken)));
    Ok(())
}
