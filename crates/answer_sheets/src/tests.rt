use crate::{audit_sheet, changes_sheet, report_sheet, totals_sheet};
use basis_compare::{Change, Changes, Part, Turn};
use claim_audit::{Audited, Claim, Finding};
use curve_pieces::{Curve, Piece};
use payment_plan::{Lump, PatternRule, Plan};
use portfolio_run::{Total, Totals};
use product_model::Product;
use report_columns::{Note, What};
use reserve_report::{Kind, Report};
use row_sheets::csv_bytes;
use state_graph::Graph;
use std::alloc::{AllocError, Global};
use std::test::Fail;

const FIRST: Note = Note {
    month: 0,
    state: 1,
    what: What::First,
    lo: -1_234_567,
    hi: 100_000_000,
};

const VARIANCE: Note = Note {
    month: 12,
    state: 0,
    what: What::Variance,
    lo: -1,
    hi: 2,
};

const RISE: Change = Change {
    month: 60,
    state: 1,
    part: Part::Rest,
    lo: -6_632_842,
    hi: 265_949_740,
    tol: 6,
    turn: Turn::Open,
};

const CLAIM: Claim = Claim {
    month: 24,
    state: 1,
    claim: 50_000,
    lo: 0,
    hi: 1,
    mark: Finding::Undecided,
};

const INTEREST: Piece = Piece {
    from: 0,
    c: [1, 0, 0, 0, 0, 0],
};

const RATE: Piece = Piece {
    from: 0,
    c: [2, 3, 0, 0, 0, 0],
};

const LUMP: Lump = Lump {
    month: 24,
    state: 1,
    amount: 10_000,
};

// Two states and one transition over two years.
fn endowment(alloc: Global) -> Result<Product, Fail> {
    let on = b"on".to_vec(alloc)?;
    let off = b"off".to_vec(alloc)?;
    let names = vec![in alloc; on, off]?;
    let graph = Graph::new(alloc, names, [(1, 0)].to_vec(alloc)?)?;
    let interest = Curve::new(alloc, [INTEREST].to_vec(alloc)?, 24)?;
    let rate = Curve::new(alloc, [RATE].to_vec(alloc)?, 24)?;
    let sums = vec![in alloc; Vec::new(alloc)]?;
    let pattern = PatternRule {
        payers: [1].to_vec(alloc)?,
        until: 12,
        every: 0,
    };
    let plan = Plan::new(
        alloc,
        2,
        24,
        sums,
        Vec::new(alloc),
        [LUMP].to_vec(alloc)?,
        pattern,
    )?;
    let name = b"endowment".to_vec(alloc)?;
    let rates = vec![in alloc; rate]?;
    Ok(Product::new(name, graph, 1, 24, 20, interest, rates, plan))
}

#[test]
fn a_report_as_csv(rt: HostRuntime) -> Result<(), Fail> {
    let alloc = rt.alloc();
    let product = endowment(alloc)?;
    assert_eq!(rt; product.graph().states(), 2);
    let report = Report {
        kind: Kind::Moments,
        degree: 24,
        scale: 10,
        tolerance: [3, 11_234_567].to_vec(alloc)?,
        rows: [FIRST, VARIANCE].to_vec(alloc)?,
    };
    let text = csv_bytes(alloc, &report_sheet(alloc, &product, &report)?)?;
    let wanted = b"month,state,what,lo,hi,tolerance\n\
        0,off,first,-1.234567,100.000000,0.000003\n\
        12,on,variance,-1,2,11234567\n";
    assert_eq!(rt; text.as_slice(), wanted.as_slice());
    Ok(())
}

#[test]
fn changes_as_csv(rt: HostRuntime) -> Result<(), Fail> {
    let alloc = rt.alloc();
    let product = endowment(alloc)?;
    assert_eq!(rt; product.graph().states(), 2);
    let changes = Changes {
        degree: 9,
        rows: [RISE].to_vec(alloc)?,
    };
    let text = csv_bytes(alloc, &changes_sheet(alloc, &product, &changes)?)?;
    let wanted = b"month,state,part,lo,hi,tolerance,turn\n\
        60,off,rest,-6.632842,265.949740,0.000006,open\n";
    assert_eq!(rt; text.as_slice(), wanted.as_slice());
    Ok(())
}

#[test]
fn an_audit_as_csv(rt: HostRuntime) -> Result<(), Fail> {
    let alloc = rt.alloc();
    let product = endowment(alloc)?;
    assert_eq!(rt; product.graph().states(), 2);
    let audited = Audited {
        degree: 9,
        claims: [CLAIM].to_vec(alloc)?,
    };
    let text = csv_bytes(alloc, &audit_sheet(alloc, &product, &audited)?)?;
    let wanted = b"month,state,claim,lo,hi,mark\n24,off,0.050000,0.000000,0.000001,undecided\n";
    assert_eq!(rt; text.as_slice(), wanted.as_slice());
    Ok(())
}

#[test]
fn totals_as_csv(rt: HostRuntime) -> Result<(), Fail> {
    let alloc = rt.alloc();
    let mut groups = Vec::new(alloc);
    groups.push(Total {
        name: b"north".to_vec(alloc)?,
        lo: -2_000_000,
        hi: 3_500_000,
        tol: 5_500_000,
    })?;
    let totals = Totals {
        degree: 8,
        policies: 1,
        groups,
    };
    let text = csv_bytes(alloc, &totals_sheet(alloc, &totals)?)?;
    let wanted = b"group,lo,hi,tolerance\nnorth,-2.000000,3.500000,5.500000\n";
    assert_eq!(rt; text.as_slice(), wanted.as_slice());
    Ok(())
}
