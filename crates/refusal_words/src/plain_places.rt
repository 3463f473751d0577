//! The places of a product that no file has.

ghost use Rattle.std.specs.Prelude.{◌≡◌, ◌++◌, OnOk};
ghost use Rattle.refusal_words.specs.PlaceTexts.{plain_curve, plain_place, plain_transition};

use crate::names::push_numbered;
use crate::places::Place;
use decimal_out::push_whole;
use std::alloc::AllocError;

// Appends a transition.
#[tactic(auto, unfolding(crate::specs::PlaceTexts::plain_transition))]
fn push_transition(out: &mut Vec<u8>, k: u32) -> Result<(), AllocError>
    ensures { OnOk result (out.new.items ≡ out.old.items ++ plain_transition k) }
{
    push_numbered(out, b"transition ", k)
}

// Appends a curve.
#[tactic(auto, unfolding(crate::specs::PlaceTexts::plain_curve))]
fn push_curve(out: &mut Vec<u8>, curve: u32) -> Result<(), AllocError>
    ensures { OnOk result (out.new.items ≡ out.old.items ++ plain_curve curve) }
{
    if curve > 0 {
        push_transition(out, curve - 1)?;
        out.extend_from_slice(b", rate")
    } else {
        out.extend_from_slice(b"interest")
    }
}

/// Appends a place without names.
pub fn push_plain_place(out: &mut Vec<u8>, place: Place) -> Result<(), AllocError>
    ensures { OnOk result (out.new.items ≡ out.old.items ++ plain_place place) }
{
    match place {
        Place::Thing(thing) => out.extend_from_slice(thing.word().as_bytes()),
        Place::State(i) => push_numbered(out, b"state ", i),
        Place::Transition(k) => push_transition(out, k),
        Place::Piece { curve, piece } => {
            push_curve(out, curve)?;
            push_numbered(out, b", piece ", piece)
        }
        Place::Step { list, step } => {
            push_numbered(out, b"list of steps ", list)?;
            push_numbered(out, b", step ", step)
        }
        Place::Lump(k) => push_numbered(out, b"lump ", k),
        Place::Payer(i) => push_numbered(out, b"premium, payer ", i),
        Place::Month(month) => {
            out.extend_from_slice(b"month ")?;
            push_whole(out, month)
        }
    }
}
