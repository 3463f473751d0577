// A lump of 100 after a month in one state without interest: by hand, its reserve is 100 before that month and 0 at its
// date.
ghost use Rattle.std.specs.Prelude.{◌≡◌, ◌<◌, IfOk};
ghost use Rattle.model_specs.specs.Product.{no_pattern};
ghost use Rattle.payment_plan.specs.Records.{pattern_rule_of};

use crate::{AuditError, Audited, Finding, audit};
use curve_pieces::{Curve, Piece};
use payment_plan::{Lump, PatternRule, Plan};
use product_model::Product;
use rate_bounds::{Admitted, admit};
use state_graph::Graph;
use std::alloc::Global;
use std::marker::Brand;
use std::sync::ledger::{Blank, Ledger};
use std::test::Fail;
use taylor_step::Steps;

const NO_INTEREST: Piece = Piece {
    from: 0,
    c: [0, 0, 0, 0, 0, 0],
};

fn no_pattern(alloc: Global) -> PatternRule
    ensures { pattern_rule_of result ≡ no_pattern }
{
    PatternRule {
        payers: Vec::new(alloc),
        until: 0,
        every: 0,
    }
}

fn certain(alloc: Global) -> Result<Product, Fail>
    ensures { IfOk result (λ p. p.months ≡ 1) }
{
    let on = b"on".to_vec(alloc)?;
    let names = vec![in alloc; on]?;
    let graph = Graph::new(alloc, names, Vec::new(alloc))?;
    let interest = Curve::new(alloc, [NO_INTEREST].to_vec(alloc)?, 1)?;
    let lump = Lump {
        month: 1,
        state: 0,
        amount: 100,
    };
    let lumps = [lump].to_vec(alloc)?;
    let pattern = no_pattern(alloc);
    let plan = Plan::new(
        alloc,
        1,
        1,
        Vec::new(alloc),
        Vec::new(alloc),
        lumps,
        pattern,
    )?;
    let name = b"certain".to_vec(alloc)?;
    Ok(Product::new(name, graph, 0, 1, 1, interest, Vec::new(alloc), plan))
}

// An audit to a hundred-thousandth of a minor unit.
fn counted<L: Ledger>(
    alloc: Global,
    adm: &Admitted,
    csv: &[u8],
    blank: Blank,
) -> Result<Audited, AuditError>
    requires name { blank.name ≡ L.name }
    requires parts { blank.parts ≡ L.parts }
    requires some { 0 < blank.parts }
{
    let _months = adm.product().months();
    let mut steps = Steps::<L>::open(blank);
    audit(alloc, adm, csv, 10, &mut steps)
}

// The audit with a counter of its own.
fn audit_each(alloc: Global, product: Product, csv: &[u8]) -> Result<Audited, Fail> {
    let admitted = admit(alloc, product)?;
    let audited = counted::<Brand>(alloc, &admitted, csv, Blank::new(1))
        .ok()
        .ok_or("not audited")?;
    Ok(audited)
}

#[test]
fn claims_about_a_lump_are_audited(rt: HostRuntime) -> Result<(), Fail> {
    let alloc = rt.alloc();
    let csv = b"month,state,reserve\n0,on,100\n0,on,100.001\n1,on,0.0\n";
    let audited = audit_each(alloc, certain(alloc)?, csv)?;
    assert_eq!(rt; audited.degree, 8);
    assert_eq!(rt; audited.claims.len(), 3);
    assert_eq!(rt; audited.claims[0].mark, Finding::Yes);
    assert_eq!(rt; audited.claims[1].mark, Finding::No);
    assert_eq!(rt; audited.claims[1].claim, 100_001_000);
    assert_eq!(rt; audited.claims[2].mark, Finding::Yes);
    Ok(())
}
