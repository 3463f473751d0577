//! The tree of a seed, and its text.
ghost use Rattle.std.specs.Prelude.{◌≡◌, ◌<◌, IfOk};
ghost use Rattle.toml.specs.View.{view, table_view};
ghost use Rattle.product_file.specs.Verdict.{ReadsAs, IsValid};
ghost use Rattle.workload_gen.specs.Laws.{generated_product};
ghost use Rattle.workload_gen.specs.Tree.{array_of, lump, lumps, interest, premium, states, generated};

use crate::curves::transitions;
use crate::draws::Draws;
use crate::tables::{piece, put, text};
use std::alloc::{AllocError, Global};
use toml::value::Array;
use toml::{Table, Value};

/// The months of the term.
const TERM: u32 = 780;

// The lump sum of disabled lives at the end of a month.
fn lump(alloc: Global, amount: u32, month: u32) -> Result<Value, AllocError>
    requires { month < 780 }
    ensures { IfOk result (λ value. view value ≡ lump amount month) }
{
    let mut lump = Table::new(alloc);
    put(alloc, &mut lump, "month", Value::from(month + 1))?;
    put(alloc, &mut lump, "state", text(alloc, "disabled")?)?;
    put(alloc, &mut lump, "amount", Value::from(amount))?;
    Ok(Value::from(lump))
}

// Their lump sums, one for each month.
fn lumps(alloc: Global, amount: u32) -> Result<Value, AllocError>
    ensures { IfOk result (λ value. view value ≡ array_of (lumps amount)) }
{
    let mut items = Array::new(alloc);
    for month in 0..TERM {
        items.push(lump(alloc, amount, month)?)?;
    }
    Ok(Value::from(items))
}

// The force of interest.
fn interest(alloc: Global) -> Result<Value, AllocError>
    ensures { IfOk result (λ value. view value ≡ array_of interest) }
{
    let mut items = Array::new(alloc);
    items.push(piece(alloc, 0, &[30_000_000])?)?;
    items.push(piece(alloc, 240, &[25_000_000])?)?;
    Ok(Value::from(items))
}

// The names of the states.
fn states(alloc: Global) -> Result<Value, AllocError>
    ensures { IfOk result (λ value. view value ≡ array_of states) }
{
    let mut items = Array::new(alloc);
    items.push(text(alloc, "active")?)?;
    items.push(text(alloc, "disabled")?)?;
    items.push(text(alloc, "dead")?)?;
    Ok(Value::from(items))
}

// The premium pattern.
fn premium(alloc: Global) -> Result<Value, AllocError>
    ensures { IfOk result (λ value. view value ≡ premium) }
{
    let mut payers = Array::new(alloc);
    payers.push(text(alloc, "active")?)?;
    let mut table = Table::new(alloc);
    put(alloc, &mut table, "payers", Value::from(payers))?;
    put(alloc, &mut table, "until", Value::from(480u32))?;
    put(alloc, &mut table, "every", Value::from(1u32))?;
    Ok(Value::from(table))
}

// The whole tree.
fn tree(alloc: Global, seed: u64) -> Result<Table, AllocError>
    ensures { IfOk result (λ tree. table_view tree ≡ generated seed) }
{
    let mut draws = Draws { state: seed };
    let amount = 100_000 + draws.draw(50_001);
    let name = format!(in alloc; "generated-{seed}")?;
    let mut tree = Table::new(alloc);
    put(alloc, &mut tree, "format", Value::from(1u32))?;
    put(alloc, &mut tree, "name", Value::from(name))?;
    put(alloc, &mut tree, "months", Value::from(TERM))?;
    put(alloc, &mut tree, "den", Value::from(1_000_000_000u32))?;
    put(alloc, &mut tree, "start", text(alloc, "active")?)?;
    put(alloc, &mut tree, "states", states(alloc)?)?;
    put(alloc, &mut tree, "interest", interest(alloc)?)?;
    put(alloc, &mut tree, "lump", lumps(alloc, amount)?)?;
    put(alloc, &mut tree, "premium", premium(alloc)?)?;
    put(
        alloc,
        &mut tree,
        "transition",
        transitions(alloc, &mut draws)?,
    )?;
    Ok(tree)
}

/// The product file of a seed: the text of its tree, which breaks no rule.
pub fn make(alloc: Global, seed: u64) -> Result<Vec<u8>, AllocError>
    ensures tree { IfOk result (λ text. ReadsAs text.items (generated seed)) }
    ensures valid { IfOk result (λ text. IsValid text.items (generated_product seed)) }
{
    match toml::table_to_string(alloc, &tree(alloc, seed)?) {
        Ok(text) => Ok(text.into_bytes()),
        Err(_) => Err(AllocError),
    }
}
