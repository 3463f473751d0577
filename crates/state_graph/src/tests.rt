use crate::{Edge, Graph};
use std::test::Fail;

// Three states, of which the last is left by no transition.
#[test]
fn states_and_exits(rt: HostRuntime) -> Result<(), Fail> {
    let alloc = rt.alloc();
    let well = b"well".to_vec(alloc)?;
    let ill = b"ill".to_vec(alloc)?;
    let dead = b"dead".to_vec(alloc)?;
    let names = vec![in alloc; well, ill, dead]?;
    let edges = [(1, 2), (0, 1), (0, 2), (1, 0)].to_vec(alloc)?;
    let graph = Graph::new(alloc, names, edges)?;
    assert_eq!(rt; graph.states(), 3);
    assert_eq!(rt; graph.transitions(), 4);
    assert_eq!(rt; graph.name(1), b"ill".as_slice());
    assert_eq!(rt; graph.pair(3), (1, 0));
    let cases = [
        (b"well".as_slice(), Some(0)),
        (b"dead".as_slice(), Some(2)),
        (b"dea".as_slice(), None),
        (b"".as_slice(), None),
    ];
    for (name, wanted) in cases {
        assert_eq!(rt; graph.state_of(name), wanted);
    }
    let from_well = [
        Edge {
            to: 1,
            transition: 1,
        },
        Edge {
            to: 2,
            transition: 2,
        },
    ];
    assert_eq!(rt; graph.exits(0), from_well.as_slice());
    let from_ill = [
        Edge {
            to: 2,
            transition: 0,
        },
        Edge {
            to: 0,
            transition: 3,
        },
    ];
    assert_eq!(rt; graph.exits(1), from_ill.as_slice());
    assert!(rt; graph.exits(2).is_empty());
    Ok(())
}
