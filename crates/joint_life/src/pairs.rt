//! The pairs of states, and the transitions between them.

ghost use Rattle.std.specs.Prelude.{◌≡◌, ◌<◌, ◌/◌, ◌%◌, All, IfOk, map};
ghost use Rattle.whole_laws.specs.Whole.{list_of};
ghost use Rattle.state_graph.specs.StateGraphs.{texts_of};
ghost use Rattle.product_model.specs.Views.{graph_of};
ghost use Rattle.joint_life.specs.Joining.{CanJoin};
ghost use Rattle.joint_life.specs.JointRecord.{joint_of, pair_name};
ghost use Rattle.joint_life.specs.Moves.{IsMove, moves_of, transition_of};

use crate::moves::{Life, Move};
use product_model::{Product, pairs_agree};
use state_graph::Graph;
use std::alloc::{AllocError, Global};

// The name of a pair.
fn pair_name(alloc: Global, i: usize, j: usize) -> Result<Vec<u8>, AllocError>
    ensures { IfOk result (λ name. name.items ≡ pair_name i j) }
{
    Ok(format!(in alloc; "{i}.{j}")?.into_bytes())
}

// The names of all pairs.
fn names(alloc: Global, pairs: usize, seconds: usize) -> Result<Vec<Vec<u8>>, AllocError>
    requires { 0 < seconds }
    ensures { IfOk result (λ names. texts_of names.items
        ≡ list_of pairs (λ pair. pair_name (pair / seconds) (pair % seconds))) }
{
    let mut names = Vec::new(alloc);
    for pair in 0..pairs {
        names.push(pair_name(alloc, pair / seconds, pair % seconds)?)?;
    }
    Ok(names)
}

// The pair that a move leads to.
fn target(a: &Product, b: &Product, at: Move) -> usize
    requires lives { CanJoin a.now b.now }
    requires at { IsMove a.now b.now at }
    ensures { result ≡ (transition_of a.now b.now at).to }
{
    pairs_agree();
    let seconds = b.graph().states();
    match at.life {
        Life::First => a.graph().pair(at.transition).1 * seconds + at.pair % seconds,
        Life::Second => at.pair / seconds * seconds + b.graph().pair(at.transition).1,
    }
}

// The pairs of states of all moves.
fn edges(
    alloc: Global,
    a: &Product,
    b: &Product,
    moves: &[Move],
) -> Result<Vec<(usize, usize)>, AllocError>
    requires lives { CanJoin a.now b.now }
    requires are_moves { All (IsMove a.now b.now) moves.now }
    ensures { IfOk result (λ edges. edges.items
        ≡ map (λ at. (at.pair, (transition_of a.now b.now at).to)) moves.now) }
{
    let mut edges = Vec::new(alloc);
    for i in 0..moves.len() {
        edges.push((moves[i].pair, target(a, b, moves[i])))?;
    }
    Ok(edges)
}

/// The pairs as states, and the moves as transitions.
pub(crate) fn graph_of_pairs(
    alloc: Global,
    a: &Product,
    b: &Product,
    moves: &[Move],
) -> Result<Graph, AllocError>
    requires lives { CanJoin a.now b.now }
    requires moves { moves.now ≡ moves_of a.now b.now }
    requires are_moves { All (IsMove a.now b.now) moves.now }
    ensures { IfOk result (λ graph. graph ≡ graph_of (joint_of a.now b.now)) }
{
    let seconds = b.graph().states();
    let names = names(alloc, a.graph().states() * seconds, seconds)?;
    Graph::new(alloc, names, edges(alloc, a, b, moves)?)
}
