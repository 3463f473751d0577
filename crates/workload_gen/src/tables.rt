//! Values and tables of a TOML tree.
ghost use Rattle.std.specs.Prelude.{◌≡◌, map, IfOk, OnOk};
ghost use Rattle.toml.specs.Data.{string};
ghost use Rattle.toml.specs.View.{view, table_view};
ghost use Rattle.workload_gen.specs.Tree.{array_of, piece, whole, with_member};

use std::alloc::{AllocError, Global};
use toml::value::Array;
use toml::{Table, Value};

/// Puts a value at a key of a table.
pub fn put(alloc: Global, table: &mut Table, key: &str, value: Value) -> Result<(), AllocError>
    ensures { OnOk result (table_view table.new ≡ with_member key.now (view value) (table_view table.old)) }
{
    table.insert(key.to_string(alloc)?, value)?;
    Ok(())
}

/// A string.
pub fn text(alloc: Global, text: &str) -> Result<Value, AllocError>
    ensures { IfOk result (λ value. view value ≡ string text.now) }
{
    Ok(Value::from(text.to_string(alloc)?))
}

/// An array of whole numbers.
pub fn numbers(alloc: Global, numbers: &[u32]) -> Result<Value, AllocError>
    ensures { IfOk result (λ value. view value ≡ array_of (map whole numbers.now)) }
{
    let mut items = Array::new(alloc);
    for number in numbers {
        items.push(Value::from(*number))?;
    }
    Ok(Value::from(items))
}

/// A piece of a curve from a month on.
pub fn piece(alloc: Global, from: u32, c: &[u32]) -> Result<Value, AllocError>
    ensures { IfOk result (λ value. view value ≡ piece from (map whole c.now)) }
{
    let mut table = Table::new(alloc);
    put(alloc, &mut table, "c", numbers(alloc, c)?)?;
    put(alloc, &mut table, "from", Value::from(from))?;
    Ok(Value::from(table))
}
