//! Exits of states.

ghost use Rattle.std.specs.Prelude.{◌≡◌, IfOk, map};
ghost use Rattle.whole_laws.specs.Whole.{list_of};
ghost use Rattle.state_graph.specs.Exits.{exit_by, exits_of};

use std::alloc::{AllocError, Global};

/// An exit of a state: the state it leads to, and the transition's index in the file.
#[derive(Clone, Copy, Debug, PartialEq, Eq)]
pub struct Edge {
    pub to: usize,
    pub transition: usize,
}

// The exits of a state, in the order of the transitions.
#[tactic(auto, using(crate::proofs::ExitSteps::exit_is_taken, crate::proofs::ExitSteps::exit_is_passed))]
fn exits_from(
    alloc: Global,
    edges: &[(usize, usize)],
    state: usize,
) -> Result<Vec<Edge>, AllocError>
    ensures { IfOk result (λ exits. exits.items ≡ map (exit_by edges.now) (exits_of edges.now state)) }
{
    let mut exits = Vec::new(alloc);
    for transition in 0..edges.len() {
        let (from, to) = edges[transition];
        if from == state {
            exits.push(Edge { to, transition })?;
        }
    }
    Ok(exits)
}

/// For each state the exits of it.
#[tactic(auto, using(crate::proofs::ExitSteps::table_of_more, std::proofs::lemmas::List::map_push))]
pub(crate) fn exit_table(
    alloc: Global,
    edges: &[(usize, usize)],
    states: usize,
) -> Result<Vec<Vec<Edge>>, AllocError>
    ensures { IfOk result (λ table. map (λ exits. exits.items) table.items
        ≡ list_of states (λ state. map (exit_by edges.now) (exits_of edges.now state))) }
{
    let mut table = Vec::new(alloc);
    for state in 0..states {
        let exits = exits_from(alloc, edges, state)?;
        table.push(exits)?;
    }
    Ok(table)
}
