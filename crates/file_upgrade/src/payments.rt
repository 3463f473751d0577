//! The payments of a file.

ghost use Rattle.std.specs.Prelude.{◌≡◌, ◌<◌, IfOk, length, map};
ghost use Rattle.toml.specs.View.{view};
ghost use Rattle.payment_plan.specs.Records.{steps_of, sojourn_of, lump_of};
ghost use Rattle.workload_gen.specs.Tree.{array_of};
ghost use Rattle.file_upgrade.specs.FileTree.{state_data, steps_data, sojourn_data, lump_data, premium_data};

use crate::head::state;
use crate::tables::{part, put};
use payment_plan::{Lump, StepAmount};
use product_model::Product;
use std::alloc::{AllocError, Global};
use toml::value::Array;
use toml::{Table, Value};

/// The steps of a payment.
pub(crate) fn steps(alloc: Global, steps: &[StepAmount]) -> Result<Value, AllocError>
    ensures { IfOk result (λ value. view value ≡ steps_data (steps_of steps.now)) }
{
    let mut items = Array::new(alloc);
    for i in 0..steps.len() {
        items.push(part(alloc, steps[i].from, &steps[i].c)?)?;
    }
    Ok(Value::from(items))
}

// A sojourn.
fn sojourn(
    alloc: Global,
    product: &Product,
    sojourn: &(usize, Vec<StepAmount>),
) -> Result<Value, AllocError>
    requires { sojourn.now.0 < length product.now.states }
    ensures { IfOk result (λ value. view value ≡ sojourn_data product.now (sojourn_of sojourn.now)) }
{
    let mut table = Table::new(alloc);
    put(
        alloc,
        &mut table,
        "state",
        state(alloc, product, sojourn.0)?,
    )?;
    put(alloc, &mut table, "steps", steps(alloc, &sojourn.1)?)?;
    Ok(Value::from(table))
}

/// The sojourns, in their order.
pub(crate) fn sojourns(alloc: Global, product: &Product) -> Result<Value, AllocError>
    ensures { IfOk result (λ value. view value ≡ array_of (map (sojourn_data product.now) product.now.sojourns)) }
{
    let sojourns = product.plan().sojourns();
    let mut items = Array::new(alloc);
    for i in 0..sojourns.len() {
        items.push(sojourn(alloc, product, &sojourns[i])?)?;
    }
    Ok(Value::from(items))
}

// A lump.
fn lump(alloc: Global, product: &Product, lump: &Lump) -> Result<Value, AllocError>
    requires { lump.now.state < length product.now.states }
    ensures { IfOk result (λ value. view value ≡ lump_data product.now (lump_of lump.now)) }
{
    let mut table = Table::new(alloc);
    put(alloc, &mut table, "month", Value::from(lump.month))?;
    put(
        alloc,
        &mut table,
        "state",
        state(alloc, product, lump.state)?,
    )?;
    put(alloc, &mut table, "amount", Value::from(lump.amount))?;
    Ok(Value::from(table))
}

/// The lumps, in their order.
pub(crate) fn lumps(alloc: Global, product: &Product) -> Result<Value, AllocError>
    ensures { IfOk result (λ value. view value ≡ array_of (map (lump_data product.now) product.now.lumps)) }
{
    let lumps = product.plan().lumps();
    let mut items = Array::new(alloc);
    for i in 0..lumps.len() {
        items.push(lump(alloc, product, &lumps[i])?)?;
    }
    Ok(Value::from(items))
}

// The payers.
fn payers(alloc: Global, product: &Product) -> Result<Value, AllocError>
    ensures { IfOk result (λ value. view value ≡
        array_of (map (state_data product.now) product.now.pattern.payers)) }
{
    let payers = &product.plan().pattern().payers;
    let mut items = Array::new(alloc);
    for i in 0..payers.len() {
        items.push(state(alloc, product, payers[i])?)?;
    }
    Ok(Value::from(items))
}

/// The premium pattern.
pub(crate) fn premium(alloc: Global, product: &Product) -> Result<Value, AllocError>
    ensures { IfOk result (λ value. view value ≡ premium_data product.now) }
{
    let pattern = product.plan().pattern();
    let mut table = Table::new(alloc);
    put(alloc, &mut table, "payers", payers(alloc, product)?)?;
    put(alloc, &mut table, "until", Value::from(pattern.until))?;
    put(alloc, &mut table, "every", Value::from(pattern.every))?;
    Ok(Value::from(table))
}
