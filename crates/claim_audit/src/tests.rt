mod audits;

use crate::{AuditError, Claimed, Finding, findings_of, mark, read_claims};
use fixed_interval::{Printed, Table};
use rule_breaks::RowBreak;
use state_graph::Graph;
use std::alloc::{AllocError, Global};
use std::test::Fail;

const ACTIVE: Claimed = Claimed {
    month: 0,
    state: 0,
    claim: 9_443_264_167,
};

const TOO_MUCH: Claimed = Claimed {
    month: 0,
    state: 0,
    claim: 9_443_300_000,
};

const DEAD: Claimed = Claimed {
    month: 120,
    state: 1,
    claim: 0,
};

#[test]
fn marks_by_hand(rt: HostRuntime) -> Result<(), Fail> {
    for (claim, eps, lo, hi, wanted) in [
        (5, 1, 4, 6, Finding::Yes),
        (5, 1, 7, 9, Finding::No),
        (5, 1, 5, 7, Finding::Undecided),
        (5, 1, 3, 6, Finding::Undecided),
        (5, 1, 1, 3, Finding::No),
        (5, 1, 6, 9, Finding::Undecided),
        (-5, 0, -5, -5, Finding::Yes),
        (-5, 0, -6, -6, Finding::No),
    ] {
        assert_eq!(rt; mark(claim, eps, lo, hi), wanted);
    }
    Ok(())
}

fn two_states(alloc: Global) -> Result<Graph, AllocError> {
    let names = vec![in alloc; b"active".to_vec(alloc)?, b"dead".to_vec(alloc)?]?;
    Graph::new(alloc, names, [(0, 1)].to_vec(alloc)?)
}

#[test]
fn claims_are_read(rt: HostRuntime) -> Result<(), Fail> {
    let alloc = rt.alloc();
    let graph = two_states(alloc)?;
    assert_eq!(rt; graph.states(), 2);
    let plain = "month,state,reserve\n0,active,9443.264167\n0,active,9443.3\n120,dead,0\n";
    let sheet =
        "\u{feff}\"month\",state,reserve\r\n0,active,9443.264167\r\n\r\n0,\"active\",9443.3\r\n120,dead,-0.0";
    for text in [plain, sheet] {
        let claims = read_claims(alloc, &graph, 120, text.as_bytes())?;
        assert_eq!(rt; claims.as_slice(), [ACTIVE, TOO_MUCH, DEAD].as_slice());
    }
    Ok(())
}

#[test]
fn wrong_rows_are_told(rt: HostRuntime) -> Result<(), Fail> {
    let alloc = rt.alloc();
    let graph = two_states(alloc)?;
    assert_eq!(rt; graph.states(), 2);
    for (text, row, part) in [
        ("", 0, 0),
        ("month,state,Reserve\n0,alive,x\n", 0, 0),
        ("month,state,reserve\n121,dead,0\n", 1, 2),
        ("month,state,reserve\n0,dead,0\n0,dead\n0\n", 2, 1),
        ("month,state,reserve\n01,nobody,x\n", 1, 2),
        ("month,state,reserve\n1,nobody,x\n", 1, 3),
        ("month,state,reserve\n1,dead,1.\n", 1, 4),
    ] {
        let told = read_claims(alloc, &graph, 120, text.as_bytes());
        let Err(why) = told else {
            assert!(rt; false);
            return Ok(());
        };
        assert_eq!(rt; why, AuditError::Row(RowBreak { row, part }));
    }
    Ok(())
}

#[test]
fn claims_are_marked(rt: HostRuntime) -> Result<(), Fail> {
    let alloc = rt.alloc();
    let number = Printed {
        lo: 9_443_264_160,
        hi: 9_443_264_170,
    };
    let nothing = Printed { lo: 0, hi: 0 };
    let table = Table {
        degree: 8,
        every: 1,
        states: 2,
        cells: [nothing, number, nothing, nothing].to_vec(alloc)?,
    };
    let near = Claimed {
        month: 0,
        state: 1,
        claim: 9_443_264_167,
    };
    let far = Claimed {
        month: 1,
        state: 0,
        claim: -11,
    };
    let claims = findings_of(alloc, &table, &[near, far, near], 10)?;
    assert_eq!(rt; claims.len(), 3);
    assert_eq!(rt; claims[0].mark, Finding::Yes);
    assert_eq!(rt; claims[1].mark, Finding::No);
    assert_eq!(rt; claims[1].claim, -11);
    assert_eq!(rt; claims[1].hi, 0);
    assert_eq!(rt; claims[2].month, 0);
    Ok(())
}
