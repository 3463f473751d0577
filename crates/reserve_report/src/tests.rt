ghost use Rattle.std.specs.Prelude.{◌≡◌, IfOk, length};
ghost use Rattle.std.proofs.Common.{lit≤};
ghost use Rattle.reserve_report.specs.Reports.{HasText};

use crate::{Kind, Report, report_bytes};
use curve_pieces::{Curve, Piece};
use payment_plan::{Lump, PatternRule, Plan};
use product_model::Product;
use report_columns::{Column, CsvColumn, Note, SignColumn, What, WidthColumn};
use state_graph::Graph;
use std::alloc::{AllocError, Global};
use std::test::Fail;

const AT_ISSUE: Note = Note {
    month: 0,
    state: 1,
    what: What::Value,
    lo: -1,
    hi: 2,
};

const LATER: Note = Note {
    month: 12,
    state: 0,
    what: What::Value,
    lo: -1_234_567,
    hi: 10_000_000,
};

const RESERVES: [Note; 2] = [
    Note {
        month: 0,
        state: 0,
        what: What::Reserve,
        lo: 0,
        hi: 0,
    },
    Note {
        month: 12,
        state: 1,
        what: What::Reserve,
        lo: 1,
        hi: 999_999,
    },
];

const MOMENTS: [Note; 3] = [
    Note {
        month: 0,
        state: 1,
        what: What::First,
        lo: 100_000_000,
        hi: 100_000_000,
    },
    Note {
        month: 0,
        state: 1,
        what: What::Second,
        lo: 9_999,
        hi: 10_001,
    },
    Note {
        month: 0,
        state: 1,
        what: What::Variance,
        lo: -1,
        hi: 2,
    },
];

const INTEREST: Piece = Piece {
    from: 0,
    c: [1, 0, 0, 0, 0, 0],
};

const RATE: Piece = Piece {
    from: 0,
    c: [2, 3, 0, 0, 0, 0],
};

const LUMP: Lump = Lump {
    month: 24,
    state: 1,
    amount: 10_000,
};

// Two states and one transition over two years.
fn endowment(alloc: Global) -> Result<Product, Fail> {
    let on = b"on".to_vec(alloc)?;
    let off = b"off".to_vec(alloc)?;
    let names = vec![in alloc; on, off]?;
    let graph = Graph::new(alloc, names, [(1, 0)].to_vec(alloc)?)?;
    let interest = Curve::new(alloc, [INTEREST].to_vec(alloc)?, 24)?;
    let rate = Curve::new(alloc, [RATE].to_vec(alloc)?, 24)?;
    let sums = vec![in alloc; Vec::new(alloc)]?;
    let pattern = PatternRule {
        payers: [1].to_vec(alloc)?,
        until: 12,
        every: 0,
    };
    let plan = Plan::new(
        alloc,
        2,
        24,
        sums,
        Vec::new(alloc),
        [LUMP].to_vec(alloc)?,
        pattern,
    )?;
    let name = b"endowment".to_vec(alloc)?;
    let rates = vec![in alloc; rate]?;
    Ok(Product::new(name, graph, 1, 24, 20, interest, rates, plan))
}

#[test]
fn a_report_is_written(rt: HostRuntime) -> Result<(), Fail> {
    let alloc = rt.alloc();
    let product = endowment(alloc)?;
    assert_eq!(rt; product.graph().states(), 2);
    let report = Report {
        kind: Kind::Value,
        degree: 24,
        scale: 10,
        tolerance: [3, 11_234_567].to_vec(alloc)?,
        rows: [AT_ISSUE, LATER].to_vec(alloc)?,
    };
    let text = report_bytes(alloc, &product, &report, &mut Vec::new(alloc))?;
    let wanted = b"report value endowment\n\
        degree 24 scale 10\n\
        0 off value -0.000001 0.000002 0.000003\n\
        12 on value -1.234567 10.000000 11.234567\n\
        end 2\n";
    assert_eq!(rt; text.as_slice(), wanted.as_slice());
    Ok(())
}

#[test]
fn reserves_are_written_by_date_and_state(rt: HostRuntime) -> Result<(), Fail> {
    let alloc = rt.alloc();
    let product = endowment(alloc)?;
    assert_eq!(rt; product.graph().states(), 2);
    let report = Report {
        kind: Kind::Reserves,
        degree: 8,
        scale: 0,
        tolerance: [2, 1_000_000].to_vec(alloc)?,
        rows: RESERVES.to_vec(alloc)?,
    };
    let text = report_bytes(alloc, &product, &report, &mut Vec::new(alloc))?;
    let wanted = b"report reserves endowment\n\
        degree 8 scale 0\n\
        0 on reserve 0.000000 0.000000 0.000002\n\
        12 off reserve 0.000001 0.999999 1.000000\n\
        end 2\n";
    assert_eq!(rt; text.as_slice(), wanted.as_slice());
    Ok(())
}

// The report of the moments of a state at issue.
fn moments_report(alloc: Global, product: &Product) -> Result<Report, AllocError>
    requires { length product.now.states ≡ 2 }
    ensures { IfOk result (HasText product.now) }
{
    Ok(Report {
        kind: Kind::Moments,
        degree: 9,
        scale: 7,
        tolerance: [2, 3, 4].to_vec(alloc)?,
        rows: MOMENTS.to_vec(alloc)?,
    })
}

#[test]
fn moments_are_written_in_their_units(rt: HostRuntime) -> Result<(), Fail> {
    let alloc = rt.alloc();
    let product = endowment(alloc)?;
    assert_eq!(rt; product.graph().states(), 2);
    let report = moments_report(alloc, &product)?;
    let text = report_bytes(alloc, &product, &report, &mut Vec::new(alloc))?;
    let wanted = b"report moments endowment\n\
        degree 9 scale 7\n\
        0 off first 100.000000 100.000000 0.000002\n\
        0 off second 9999 10001 3\n\
        0 off variance -1 2 4\n\
        end 3\n";
    assert_eq!(rt; text.as_slice(), wanted.as_slice());
    Ok(())
}

#[test]
fn columns_stand_below_the_rows(rt: HostRuntime) -> Result<(), Fail> {
    let alloc = rt.alloc();
    let product = endowment(alloc)?;
    assert_eq!(rt; product.graph().states(), 2);
    let report = moments_report(alloc, &product)?;
    let mut columns: Vec<Box<dyn Column>> = Vec::new(alloc);
    columns.push(Box::new(alloc, WidthColumn::new(alloc))?)?;
    columns.push(Box::new(alloc, SignColumn::new(alloc))?)?;
    columns.push(Box::new(alloc, CsvColumn::new(alloc))?)?;
    let text = report_bytes(alloc, &product, &report, &mut columns)?;
    let wanted = b"report moments endowment\n\
        degree 9 scale 7\n\
        0 off first 100.000000 100.000000 0.000002\n\
        0 off second 9999 10001 3\n\
        0 off variance -1 2 4\n\
        end 3\n\
        column 1\n0 1 0.000000\n0 1 2\n0 1 3\n\
        column 2\n0 1 +\n0 1 +\n0 1 ?\n\
        column 3\n0,1,first,100.000000,100.000000\n0,1,second,9999,10001\n0,1,variance,-1,2\n";
    assert_eq!(rt; text.as_slice(), wanted.as_slice());
    Ok(())
}

// A column of a caller: its third note is refused.
#[derive(Drop)]
struct FailingColumn {
    inner: SignColumn,
    notes: u8,
}

impl Column for FailingColumn {
    ghost kind = { λ column. ⟦<SignColumn as Column>⟧.kind column.inner };

    ghost text = { λ column. ⟦<SignColumn as Column>⟧.text column.inner };

    fn note(&mut self, note: &Note) -> Result<(), AllocError> {
        if self.notes == 2 {
            return Err(AllocError);
        }
        self.notes = self.notes.saturating_add(1);
        self.inner.note(note)
    }

    fn kind(&self) -> u8 {
        self.inner.kind()
    }

    fn text(&self) -> &[u8] {
        self.inner.text()
    }

    ghost known = { λ _. record { least = lit≤ tt; most = lit≤ tt } };
}

#[test]
fn a_column_that_fails_keeps_its_lines(rt: HostRuntime) -> Result<(), Fail> {
    let alloc = rt.alloc();
    let product = endowment(alloc)?;
    assert_eq!(rt; product.graph().states(), 2);
    let report = moments_report(alloc, &product)?;
    let failing = FailingColumn {
        inner: SignColumn::new(alloc),
        notes: 0,
    };
    let mut columns: Vec<Box<dyn Column>> = Vec::new(alloc);
    columns.push(Box::new(alloc, failing)?)?;
    let text = report_bytes(alloc, &product, &report, &mut columns);
    assert!(rt; text.is_err());
    assert_eq!(rt; columns.len(), 1);
    assert_eq!(rt; columns[0].text(), b"0 1 +\n0 1 +\n".as_slice());
    Ok(())
}
