//! The ways out of all pairs of states.

ghost use Rattle.std.specs.Prelude.{◌≡◌, ◌<◌, ◌++◌, All, IfOk, OnOk, map};
ghost use Rattle.joint_life.specs.JointRecord.{pair_count};
ghost use Rattle.joint_life.specs.Moves.{IsMove, move_by, moves_from, moves_of};

use product_model::{Product, exits_agree};
use state_graph::Edge;
use std::alloc::{AllocError, Global};

/// Which life moves.
#[derive(Clone, Copy)]
pub enum Life {
    First,
    Second,
}

/// A way out of a pair of states: by a transition of one life.
#[derive(Clone, Copy)]
pub struct Move {
    pub life: Life,
    pub pair: usize,
    pub transition: usize,
}

// The ways out of a pair that one life has.
fn push_exits(
    life: Life,
    pair: usize,
    exits: &[Edge],
    moves: &mut Vec<Move>,
) -> Result<(), AllocError>
    ensures { OnOk result (moves.new.items ≡ moves.old.items
        ++ map (move_by life pair) (map (λ exit. exit.transition) exits.now)) }
{
    for i in 0..exits.len() {
        moves.push(Move {
            life,
            pair,
            transition: exits[i].transition,
        })?;
    }
    Ok(())
}

// All ways out of a pair.
fn push_moves(
    a: &Product,
    b: &Product,
    pair: usize,
    moves: &mut Vec<Move>,
) -> Result<(), AllocError>
    requires { pair < pair_count a.now b.now }
    ensures { OnOk result (moves.new.items ≡ moves.old.items ++ moves_from a.now b.now pair) }
{
    exits_agree();
    let seconds = b.graph().states();
    push_exits(Life::First, pair, a.graph().exits(pair / seconds), moves)?;
    push_exits(Life::Second, pair, b.graph().exits(pair % seconds), moves)
}

/// The ways out of all pairs.
pub(crate) fn moves_of(
    alloc: Global,
    a: &Product,
    b: &Product,
    pairs: usize,
) -> Result<Vec<Move>, AllocError>
    requires { pairs ≡ pair_count a.now b.now }
    ensures moves { IfOk result (λ moves. moves.items ≡ moves_of a.now b.now) }
    ensures are_moves { IfOk result (λ moves. All (IsMove a.now b.now) moves.items) }
{
    let mut moves = Vec::new(alloc);
    for pair in 0..pairs {
        push_moves(a, b, pair, &mut moves)?;
    }
    Ok(moves)
}
