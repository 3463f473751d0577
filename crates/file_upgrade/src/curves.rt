//! The curves and transitions of a file.

ghost use Rattle.std.specs.Prelude.{◌≡◌, ◌<◌, IfOk, OnOk, length, map};
ghost use Rattle.toml.specs.View.{view, table_view};
ghost use Rattle.model_specs.specs.Product.{transition_at};
ghost use Rattle.curve_pieces.specs.Records.{records_of};
ghost use Rattle.payment_plan.specs.Records.{steps_of};
ghost use Rattle.workload_gen.specs.Tree.{array_of};
ghost use Rattle.file_upgrade.specs.FileTree.{pieces_data, transition_data, with_sum};

use crate::head::state;
use crate::payments::steps;
use crate::tables::{part, put};
use curve_pieces::Piece;
use payment_plan::StepAmount;
use product_model::{Product, pairs_agree};
use std::alloc::{AllocError, Global};
use toml::value::Array;
use toml::{Table, Value};

/// The pieces of a curve.
pub(crate) fn pieces(alloc: Global, pieces: &[Piece]) -> Result<Value, AllocError>
    ensures { IfOk result (λ value. view value ≡ pieces_data (records_of pieces.now)) }
{
    let mut items = Array::new(alloc);
    for i in 0..pieces.len() {
        items.push(part(alloc, pieces[i].from, &pieces[i].c)?)?;
    }
    Ok(Value::from(items))
}

// Puts the sum of a transition where it has one.
fn put_sum(alloc: Global, table: &mut Table, sum: &[StepAmount]) -> Result<(), AllocError>
    ensures { OnOk result (table_view table.new ≡ with_sum (steps_of sum.now) (table_view table.old)) }
{
    if !sum.is_empty() {
        put(alloc, table, "sum", steps(alloc, sum)?)?;
    }
    Ok(())
}

// A transition.
fn transition(alloc: Global, product: &Product, k: usize) -> Result<Value, AllocError>
    requires { k < length product.now.transitions }
    ensures { IfOk result (λ value. view value ≡ transition_data product.now (transition_at product.now k)) }
{
    pairs_agree();
    let (from, to) = product.graph().pair(k);
    let mut table = Table::new(alloc);
    put(alloc, &mut table, "from", state(alloc, product, from)?)?;
    put(alloc, &mut table, "to", state(alloc, product, to)?)?;
    put(
        alloc,
        &mut table,
        "rate",
        pieces(alloc, product.rate(k).pieces())?,
    )?;
    put_sum(alloc, &mut table, product.plan().sums(k))?;
    Ok(Value::from(table))
}

/// The transitions, in their order.
pub(crate) fn transitions(alloc: Global, product: &Product) -> Result<Value, AllocError>
    ensures { IfOk result (λ value. view value ≡
        array_of (map (transition_data product.now) product.now.transitions)) }
{
    let mut items = Array::new(alloc);
    for k in 0..product.transitions() {
        items.push(transition(alloc, product, k)?)?;
    }
    Ok(Value::from(items))
}
