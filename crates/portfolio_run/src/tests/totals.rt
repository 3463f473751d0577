// A lump of 100 after a month in one state without interest: by hand, its reserve is 100 before that month and 0 at its
// date.
ghost use Rattle.std.specs.Prelude.{◌≡◌, ◌<◌, ◌≤◌, length};
ghost use Rattle.model_specs.specs.Product.{no_pattern};
ghost use Rattle.payment_plan.specs.Records.{pattern_rule_of};
ghost use Rattle.portfolio_run.specs.Readings.{files_of};
ghost use Rattle.portfolio_run.specs.Stored.{most_bytes};

use crate::{Policies, PolicyError, Totals, read_policies};
use curve_pieces::{Curve, Piece};
use payment_plan::{Lump, PatternRule, Plan};
use product_model::Product;
use rate_bounds::{Admitted, admit};
use rule_breaks::RowBreak;
use state_graph::Graph;
use std::alloc::{AllocError, Global};
use std::marker::Brand;
use std::sync::ledger::{Blank, Ledger};
use std::test::Fail;
use taylor_step::Steps;

const NO_INTEREST: Piece = Piece {
    from: 0,
    c: [0, 0, 0, 0, 0, 0],
};

fn no_pattern(alloc: Global) -> PatternRule
    ensures { pattern_rule_of result ≡ no_pattern }
{
    PatternRule {
        payers: Vec::new(alloc),
        until: 0,
        every: 0,
    }
}

fn certain(alloc: Global) -> Result<Admitted, Fail> {
    let on = b"on".to_vec(alloc)?;
    let names = vec![in alloc; on]?;
    let graph = Graph::new(alloc, names, Vec::new(alloc))?;
    let interest = Curve::new(alloc, [NO_INTEREST].to_vec(alloc)?, 1)?;
    let lump = Lump {
        month: 1,
        state: 0,
        amount: 100,
    };
    let lumps = [lump].to_vec(alloc)?;
    let pattern = no_pattern(alloc);
    let plan = Plan::new(
        alloc,
        1,
        1,
        Vec::new(alloc),
        Vec::new(alloc),
        lumps,
        pattern,
    )?;
    let name = b"certain".to_vec(alloc)?;
    let product = Product::new(name, graph, 0, 1, 1, interest, Vec::new(alloc), plan);
    Ok(admit(alloc, product)?)
}

// Values the next file, with a counter of its own.
fn counted<L: Ledger>(
    policies: &mut Policies,
    adm: &Admitted,
    blank: Blank,
) -> Result<(), AllocError>
    requires name { blank.name ≡ L.name }
    requires parts { blank.parts ≡ L.parts }
    requires some { 0 < blank.parts }
    requires left { length policies.old.valued < length (files_of policies.old.holdings) }
{
    let _months = adm.product().months();
    let mut steps = Steps::<L>::open(blank);
    policies.value_next(adm, &mut steps)
}

// The totals of a text that names one file.
fn sum_up(alloc: Global, csv: &[u8]) -> Result<Result<Totals, PolicyError>, Fail>
    requires { length csv.now ≤ most_bytes }
{
    let mut policies = read_policies(alloc, csv)?;
    let adm = certain(alloc)?;
    if policies.files().len() != 1 || policies.valued() != 0 {
        return Err("not one file".into());
    }
    counted::<Brand>(&mut policies, &adm, Blank::new(1))?;
    if policies.files().len() != policies.valued() {
        return Err("not all valued".into());
    }
    Ok(policies.totals())
}

#[test]
fn groups_are_summed_up(rt: HostRuntime) -> Result<(), Fail> {
    let alloc = rt.alloc();
    let csv = b"file,group,month,state,count\nc,x,0,on,2\nc,y,1,on,3\nc,x,1,on,5\n";
    let totals = sum_up(alloc, csv)??;
    assert_eq!(rt; totals.degree, 8);
    assert_eq!(rt; totals.policies, 3);
    // at the term the tolerance is 0.000002
    for (place, name, value) in [(0, "x", 200_000_000), (1, "y", 0)] {
        let group = totals.groups.get(place).ok_or("no group")?;
        assert_eq!(rt; group.name.as_slice(), name.as_bytes());
        assert!(rt; group.lo <= value && value <= group.hi);
    }
    assert_eq!(rt; totals.groups.len(), 2);
    let last = totals.groups.get(1).ok_or("no group")?;
    assert_eq!(rt; last.tol, 6);
    Ok(())
}

#[test]
fn dates_and_states_that_a_product_has_not_are_told(rt: HostRuntime) -> Result<(), Fail> {
    let alloc = rt.alloc();
    for (csv, row, part) in [
        (
            "file,group,month,state,count\nc,x,1,on,1\nc,x,2,off,1\n",
            2,
            6,
        ),
        ("file,group,month,state,count\nc,x,1,off,1\n", 1, 7),
    ] {
        let why = sum_up(alloc, csv.as_bytes())?.err().ok_or("summed up")?;
        assert_eq!(rt; why, PolicyError::Row(RowBreak { row, part }));
    }
    Ok(())
}
