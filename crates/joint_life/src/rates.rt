//! The intensities of the joint record.

ghost use Rattle.std.specs.Prelude.{◌≡◌, ◌≤◌, All, IfOk, map};
ghost use Rattle.named_numbers.specs.Numbers.{most_months};
ghost use Rattle.model_specs.specs.RecordRules.{IsCurve, IsBoundedCurve};
ghost use Rattle.curve_pieces.specs.Records.{records_of};
ghost use Rattle.product_model.specs.Views.{curve_of};
ghost use Rattle.joint_life.specs.Joining.{CanJoin};
ghost use Rattle.joint_life.specs.JointRecord.{joint_of, pieces_within};
ghost use Rattle.joint_life.specs.Moves.{IsMove, transition_of};

use crate::moves::{Life, Move};
use curve_pieces::{Curve, Piece};
use product_model::Product;
use std::alloc::{AllocError, Global};

// The pieces that start below a term.
fn pieces_within(alloc: Global, pieces: &[Piece], months: u32) -> Result<Vec<Piece>, AllocError>
    ensures { IfOk result (λ kept. records_of kept.items ≡ pieces_within months (records_of pieces.now)) }
{
    let mut kept = Vec::new(alloc);
    for i in 0..pieces.len() {
        if pieces[i].from < months {
            kept.push(pieces[i])?;
        }
    }
    Ok(kept)
}

// The pieces of a move's intensity.
fn rate_pieces(alloc: Global, a: &Product, b: &Product, at: Move) -> Result<Vec<Piece>, AllocError>
    requires { IsMove a.now b.now at }
    ensures { IfOk result (λ pieces. records_of pieces.items ≡ (transition_of a.now b.now at).rate) }
{
    match at.life {
        Life::First => a.rate(at.transition).pieces().to_vec(alloc),
        Life::Second => pieces_within(alloc, b.rate(at.transition).pieces(), a.months()),
    }
}

// The curve of some pieces that obey rules 8 and 9.
pub(crate) fn curve(alloc: Global, pieces: Vec<Piece>, months: u32) -> Result<Curve, AllocError>
    requires some_month { 1 ≤ months }
    requires most_months { months ≤ most_months }
    requires rule_8 { IsCurve months (records_of pieces.items) }
    requires rule_9 { IsBoundedCurve months (records_of pieces.items) }
    ensures { IfOk result (λ curve. curve ≡ record { pieces = records_of pieces.items; months = months }) }
{
    // the pieces obey rules 8 and 9, so they are not refused
    Ok(Curve::new(alloc, pieces, months).unwrap())
}

// A move's intensity over the first life's term.
fn rate(alloc: Global, a: &Product, b: &Product, at: Move) -> Result<Curve, AllocError>
    requires lives { CanJoin a.now b.now }
    requires at { IsMove a.now b.now at }
    ensures { IfOk result (λ rate. rate ≡ curve_of (joint_of a.now b.now) (transition_of a.now b.now at).rate) }
{
    curve(alloc, rate_pieces(alloc, a, b, at)?, a.months())
}

/// The intensities of all moves.
pub(crate) fn rates(
    alloc: Global,
    a: &Product,
    b: &Product,
    moves: &[Move],
) -> Result<Vec<Curve>, AllocError>
    requires lives { CanJoin a.now b.now }
    requires are_moves { All (IsMove a.now b.now) moves.now }
    ensures { IfOk result (λ rates. rates.items
        ≡ map (λ at. curve_of (joint_of a.now b.now) (transition_of a.now b.now at).rate) moves.now) }
{
    let mut rates = Vec::new(alloc);
    for i in 0..moves.len() {
        rates.push(rate(alloc, a, b, moves[i])?)?;
    }
    Ok(rates)
}
