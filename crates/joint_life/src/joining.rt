//! Two lives as one product.

ghost use Rattle.std.specs.Prelude.{◌≡◌, IfOk, Some, None};
ghost use Rattle.product_model.specs.Views.{curve_of};
ghost use Rattle.joint_life.specs.Breaks.{first_break};
ghost use Rattle.joint_life.specs.Joining.{CanJoin};
ghost use Rattle.joint_life.specs.JointRecord.{joint_of};
ghost use Rattle.joint_life.specs.Marginals.{HasMarginals};
ghost use Rattle.joint_life.specs.declared.breaks.JoinBreak as breaks;

use crate::breaks::{JoinBreak, first_break};
use crate::laws::{joint_records_are_well_formed, marginals_are_single_lives};
use crate::moves::moves_of;
use crate::pairs::graph_of_pairs;
use crate::payments::{plan, with_start};
use crate::rates::{curve, rates};
use curve_pieces::Curve;
use product_model::Product;
use rate_bounds::Admitted;
use std::alloc::{AllocError, Global};
use thiserror::Error;

/// Why two lives have no joint record.
#[derive(Clone, Copy, Debug, PartialEq, Eq, Error)]
pub enum JoinError {
    /// The first part that is broken.
    #[error("part {part} is broken: {a} and {b}", part = .0.part, a = .0.a, b = .0.b)]
    Join(JoinBreak),
    #[error("out of memory")]
    Memory,
}

impl From<AllocError> for JoinError {
    ghost use Rattle.joint_life.specs.declared.joining.JoinError.TheVariants.{Memory};

    ghost from_gives = { λ _ e. e ≡ Memory };

    fn from(_: AllocError) -> Self {
        JoinError::Memory
    }
}

// The name.
fn name_of(alloc: Global, a: &Product) -> Result<Vec<u8>, AllocError>
    ensures { IfOk result (λ name. name.items ≡ a.now.name) }
{
    a.name().to_vec(alloc)
}

// The force of interest.
fn interest_of(alloc: Global, a: &Product) -> Result<Curve, AllocError>
    ensures { IfOk result (λ interest. interest ≡ curve_of a.now a.now.interest) }
{
    let interest = a.interest();
    let pieces = interest.pieces().to_vec(alloc)?;
    curve(alloc, pieces, interest.months())
}

// The joint record of two lives that can be joined.
fn joint_product(alloc: Global, a: &Product, b: &Product) -> Result<Product, AllocError>
    requires { CanJoin a.now b.now }
    ensures joint { IfOk result (λ joint. joint ≡ joint_of a.now b.now) }
    ensures marginals { IfOk result (λ joint. HasMarginals joint a.now b.now) }
{
    joint_records_are_well_formed();
    marginals_are_single_lives();
    let pairs = a.graph().states() * b.graph().states();
    let moves = moves_of(alloc, a, b, pairs)?;
    let name = name_of(alloc, a)?;
    let graph = graph_of_pairs(alloc, a, b, &moves)?;
    let start = with_start(a, b, a.start());
    let months = a.months();
    let den = a.den();
    let interest = interest_of(alloc, a)?;
    let rates = rates(alloc, a, b, &moves)?;
    let plan = plan(alloc, a, b, &moves)?;
    Ok(Product::new(name, graph, start, months, den, interest, rates, plan))
}

/// The joint record of two lives: the chain of the pairs of their states, where the contract of life A is in force
/// while life B is in its start state. Its probabilities, added over the states of one life, are exactly the other
/// life's, in every degree. It refuses lives that have none, by the first part that is broken. It may break rules 17
/// and 18.
pub fn join(alloc: Global, a: &Admitted, b: &Admitted) -> Result<Product, JoinError>
    ensures ok { IfOk result (λ joint. joint ≡ joint_of a.now b.now) }
    ensures marginals { IfOk result (λ joint. HasMarginals joint a.now b.now) }
    ensures can_join { IfOk result (λ _. first_break a.now b.now ≡ None) }
    ensures join { (broken : breaks.JoinBreak) → result ≡ Err (JoinError.Join broken)
        → first_break a.now b.now ≡ Some broken }
{
    let (first, second) = (a.product(), b.product());
    match first_break(first, second) {
        Some(broken) => Err(JoinError::Join(broken)),
        None => Ok(joint_product(alloc, first, second)?),
    }
}
