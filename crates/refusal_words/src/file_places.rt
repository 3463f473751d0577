//! The places of a file, by its own names.

ghost use Rattle.std.specs.Prelude.{◌≡◌, ◌++◌, count_by, int_le, length, nat_lt, OnOk};
ghost use Rattle.toml.specs.View.{table_view, view};
ghost use Rattle.product_file.specs.CurveRules.{start_of};
ghost use Rattle.product_file.specs.TransitionRule.{transition_items};
ghost use Rattle.product_file.specs.PatternRules.{payer_items};
ghost use Rattle.refusal_words.specs.FileNames as spec;
ghost use Rattle.refusal_words.specs.FileNames.{curve_words, lump_words, payer_words, sojourn_step_words};
ghost use Rattle.refusal_words.specs.FileNames.{sojourn_words, state_words, step_words, thing_words};
ghost use Rattle.refusal_words.specs.FileNames.{transition_words};
ghost use Rattle.refusal_words.specs.PlaceTexts.{curve_in_month, file_place, interest_piece};

use crate::names::{push_ends, push_named, push_numbered, text_at, text_item};
use crate::other_keys::other_key;
use crate::owners::{Owner, is_good_sojourn, owner_of};
use crate::places::{Place, Thing};
use crate::rules::Rule;
use decimal_out::push_whole;
use file_tree::{items_of, lumps, payers, sojourns, start_of, states, transitions};
use std::alloc::AllocError;
use toml::{Table, Value};

// Appends what has words of its own, with the name of another key.
#[tactic(auto, unfolding(crate::specs::FileNames::thing_words))]
fn push_thing(out: &mut Vec<u8>, tree: &Table, thing: Thing) -> Result<(), AllocError>
    ensures { OnOk result (out.new.items ≡ out.old.items ++ thing_words (table_view tree.now) thing) }
{
    out.extend_from_slice(thing.word().as_bytes())?;
    match thing {
        Thing::Another => push_named(out, other_key(tree)),
        _ => Ok(()),
    }
}

// Appends a state.
#[tactic(auto, unfolding(crate::specs::FileNames::state_words))]
fn push_state(out: &mut Vec<u8>, tree: &Table, i: u32) -> Result<(), AllocError>
    ensures { OnOk result (out.new.items ≡ out.old.items ++ state_words (table_view tree.now) i) }
{
    push_numbered(out, b"state ", i)?;
    push_named(out, text_item(states(tree), i))
}

// The text at a key of a transition.
fn transition_end<'a>(tree: &'a Table, k: u32, key: &str) -> &'a str
    ensures { result.now ≡ spec.text_at key.now (transition_items (table_view tree.now)) k }
{
    text_at(transitions(tree), k, key)
}

// Appends a transition.
#[tactic(auto, unfolding(crate::specs::FileNames::transition_words))]
fn push_transition(out: &mut Vec<u8>, tree: &Table, k: u32) -> Result<(), AllocError>
    ensures { OnOk result (out.new.items ≡ out.old.items ++ transition_words (table_view tree.now) k) }
{
    let from = transition_end(tree, k, "from");
    let to = transition_end(tree, k, "to");
    push_numbered(out, b"transition ", k)?;
    push_ends(out, from, to)
}

// Appends a sojourn.
#[tactic(auto, unfolding(crate::specs::FileNames::sojourn_words))]
fn push_sojourn(out: &mut Vec<u8>, tree: &Table, s: u32) -> Result<(), AllocError>
    ensures { OnOk result (out.new.items ≡ out.old.items ++ sojourn_words (table_view tree.now) s) }
{
    push_numbered(out, b"sojourn ", s)?;
    push_named(out, text_at(sojourns(tree), s, "state"))
}

// Appends a lump.
#[tactic(auto, unfolding(crate::specs::FileNames::lump_words))]
fn push_lump(out: &mut Vec<u8>, tree: &Table, k: u32) -> Result<(), AllocError>
    ensures { OnOk result (out.new.items ≡ out.old.items ++ lump_words (table_view tree.now) k) }
{
    push_numbered(out, b"lump ", k)?;
    push_named(out, text_at(lumps(tree), k, "state"))
}

// Appends a payer, or all of them where there is none.
#[tactic(auto, unfolding(crate::specs::FileNames::payer_words))]
fn push_payer(out: &mut Vec<u8>, tree: &Table, i: u32) -> Result<(), AllocError>
    ensures { OnOk result (out.new.items ≡ out.old.items ++ payer_words (table_view tree.now) i) }
{
    if has_payers(tree) {
        push_numbered(out, b"premium, payer ", i)?;
        push_named(out, text_item(payers(tree), i))
    } else {
        out.extend_from_slice(b"premium, payers")
    }
}

// Appends a curve.
#[tactic(auto, unfolding(crate::specs::FileNames::curve_words))]
fn push_curve(out: &mut Vec<u8>, tree: &Table, curve: u32) -> Result<(), AllocError>
    ensures { OnOk result (out.new.items ≡ out.old.items ++ curve_words (table_view tree.now) curve) }
{
    if curve > 0 {
        push_transition(out, tree, curve - 1)?;
        out.extend_from_slice(b", rate")
    } else {
        out.extend_from_slice(b"interest")
    }
}

// Whether the file has payers.
fn has_payers(tree: &Table) -> bool
    ensures { result ≡ nat_lt 0 (length (payer_items (table_view tree.now))) }
{
    !payers(tree).is_empty()
}

// Appends a step of a sojourn, or the sojourn alone where it is itself at fault.
#[tactic(auto, unfolding(crate::specs::FileNames::sojourn_step_words))]
fn push_sojourn_step(
    out: &mut Vec<u8>,
    tree: &Table,
    sojourn: u32,
    step: u32,
) -> Result<(), AllocError>
    ensures { OnOk result (out.new.items ≡ out.old.items ++ sojourn_step_words (table_view tree.now) sojourn step) }
{
    push_sojourn(out, tree, sojourn)?;
    if is_good_sojourn(tree, sojourn) {
        push_numbered(out, b", steps, step ", step)?;
    }
    Ok(())
}

// Appends a step of a list.
#[tactic(auto, unfolding(crate::specs::FileNames::step_words))]
fn push_step(out: &mut Vec<u8>, tree: &Table, owner: Owner, step: u32) -> Result<(), AllocError>
    ensures { OnOk result (out.new.items ≡ out.old.items ++ step_words (table_view tree.now) owner step) }
{
    match owner {
        Owner::Transition(k) => {
            push_transition(out, tree, k)?;
            push_numbered(out, b", sum, step ", step)
        }
        Owner::Sojourn(s) => push_sojourn_step(out, tree, s, step),
    }
}

/// Appends a place by the names of the file.
pub fn push_file_place(out: &mut Vec<u8>, tree: &Table, place: Place) -> Result<(), AllocError>
    ensures { OnOk result (out.new.items ≡ out.old.items ++ file_place (table_view tree.now) place) }
{
    match place {
        Place::Thing(thing) => push_thing(out, tree, thing),
        Place::State(i) => push_state(out, tree, i),
        Place::Transition(k) => push_transition(out, tree, k),
        Place::Piece { curve, piece } => {
            push_curve(out, tree, curve)?;
            push_numbered(out, b", piece ", piece)
        }
        Place::Step { list, step } => push_step(out, tree, owner_of(tree, list), step),
        Place::Lump(k) => push_lump(out, tree, k),
        Place::Payer(i) => push_payer(out, tree, i),
        Place::Month(month) => {
            out.extend_from_slice(b"month ")?;
            push_whole(out, month)
        }
    }
}

// The piece of the interest that holds in a month, from 1.
fn interest_piece(tree: &Table, month: u32) -> u64
    ensures { result ≡ interest_piece (table_view tree.now) month }
{
    let month = i64::from(month);
    pieces_until(items_of(tree, "interest"), month) as u64
}

// Whether a piece starts at or before a month.
fn starts_by(piece: &Value, month: i64) -> bool
    ensures { result ≡ int_le (start_of (view piece.now)) month }
{
    start_of(piece) <= month
}

// How many pieces start at or before a month.
fn pieces_until(pieces: &[Value], month: i64) -> usize
    ensures { result ≡ count_by (λ v. int_le (start_of (view v)) month) pieces.now }
{
    pieces
        .iter()
        .filter(|piece| starts_by(piece, month))
        .count()
}

/// Appends the curve and the piece of which a rule of months speaks, where that is one curve.
#[tactic(auto, unfolding(crate::specs::PlaceTexts::curve_in_month))]
pub fn push_curve_in_month(
    out: &mut Vec<u8>,
    tree: &Table,
    rule: Rule,
    place: Place,
) -> Result<(), AllocError>
    ensures { OnOk result (out.new.items ≡ out.old.items ++ curve_in_month (table_view tree.now) rule place) }
{
    match (rule, place) {
        (Rule::Interest, Place::Month(month)) => {
            out.extend_from_slice(b", interest, piece ")?;
            push_whole(out, interest_piece(tree, month))
        }
        _ => Ok(()),
    }
}
