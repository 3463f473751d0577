use crate::Product;
use curve_pieces::{Curve, Piece};
use payment_plan::{Lump, PatternRule, Plan};
use state_graph::Graph;
use std::alloc::Global;
use std::test::Fail;

const INTEREST: Piece = Piece {
    from: 0,
    c: [1, 0, 0, 0, 0, 0],
};

const RATE: Piece = Piece {
    from: 0,
    c: [2, 3, 0, 0, 0, 0],
};

const LUMP: Lump = Lump {
    month: 24,
    state: 1,
    amount: 10_000,
};

// Two states and one transition over two years.
fn endowment(alloc: Global) -> Result<Product, Fail> {
    let on = b"on".to_vec(alloc)?;
    let off = b"off".to_vec(alloc)?;
    let names = vec![in alloc; on, off]?;
    let graph = Graph::new(alloc, names, [(1, 0)].to_vec(alloc)?)?;
    let interest = Curve::new(alloc, [INTEREST].to_vec(alloc)?, 24)?;
    let rate = Curve::new(alloc, [RATE].to_vec(alloc)?, 24)?;
    let sums = vec![in alloc; Vec::new(alloc)]?;
    let pattern = PatternRule {
        payers: [1].to_vec(alloc)?,
        until: 12,
        every: 0,
    };
    let plan = Plan::new(
        alloc,
        2,
        24,
        sums,
        Vec::new(alloc),
        [LUMP].to_vec(alloc)?,
        pattern,
    )?;
    let name = b"endowment".to_vec(alloc)?;
    let rates = vec![in alloc; rate]?;
    Ok(Product::new(name, graph, 1, 24, 20, interest, rates, plan))
}

#[test]
fn parts_are_read_back(rt: HostRuntime) -> Result<(), Fail> {
    let product = endowment(rt.alloc())?;
    assert_eq!(rt; product.name(), b"endowment".as_slice());
    assert_eq!(rt; product.graph().state_of(b"off"), Some(1));
    assert_eq!(rt; product.start(), 1);
    assert_eq!(rt; product.months(), 24);
    assert_eq!(rt; product.den(), 20);
    assert_eq!(rt; product.interest().pieces(), [INTEREST].as_slice());
    assert_eq!(rt; product.transitions(), 1);
    assert_eq!(rt; product.rate(0).pieces(), [RATE].as_slice());
    assert_eq!(rt; product.plan().lumps(), [LUMP].as_slice());
    Ok(())
}
