//! Values and tables of a TOML tree.

ghost use Rattle.std.specs.Prelude.{◌≡◌, map, IfOk, OnOk, IsUtf8};
ghost use Rattle.toml.specs.Data.{string, integer};
ghost use Rattle.toml.specs.View.{view, table_view};
ghost use Rattle.workload_gen.specs.Tree.{array_of, with_member};
ghost use Rattle.file_upgrade.specs.FileTree.{part_data};

use std::alloc::{AllocError, Global};
use toml::value::Array;
use toml::{Table, Value};

/// Puts a value at a key of a table.
pub(crate) fn put(
    alloc: Global,
    table: &mut Table,
    key: &str,
    value: Value,
) -> Result<(), AllocError>
    ensures { OnOk result (table_view table.new ≡ with_member key.now (view value) (table_view table.old)) }
{
    table.insert(key.to_string(alloc)?, value)?;
    Ok(())
}

/// A string of bytes that are text.
pub(crate) fn text(alloc: Global, bytes: &[u8]) -> Result<Value, AllocError>
    requires { IsUtf8 bytes.now }
    ensures { IfOk result (λ value. view value ≡ string bytes.now) }
{
    let text = std::str::from_utf8(bytes).unwrap();
    Ok(Value::from(text.to_string(alloc)?))
}

// An array of whole numbers.
fn numbers(alloc: Global, numbers: &[i64]) -> Result<Value, AllocError>
    ensures { IfOk result (λ value. view value ≡ array_of (map integer numbers.now)) }
{
    let mut items = Array::new(alloc);
    for i in 0..numbers.len() {
        items.push(Value::from(numbers[i]))?;
    }
    Ok(Value::from(items))
}

/// A piece of a curve or a step of a payment, from a month on.
pub(crate) fn part(alloc: Global, from: u32, c: &[i64]) -> Result<Value, AllocError>
    ensures { IfOk result (λ value. view value ≡ part_data from c.now) }
{
    let mut table = Table::new(alloc);
    put(alloc, &mut table, "c", numbers(alloc, c)?)?;
    put(alloc, &mut table, "from", Value::from(from))?;
    Ok(Value::from(table))
}
