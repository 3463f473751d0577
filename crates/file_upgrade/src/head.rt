//! The names of a file.

ghost use Rattle.std.specs.Prelude.{◌≡◌, ◌<◌, IfOk, length, map};
ghost use Rattle.toml.specs.Data.{string};
ghost use Rattle.toml.specs.View.{view};
ghost use Rattle.workload_gen.specs.Tree.{array_of};
ghost use Rattle.file_upgrade.specs.FileTree.{state_data};

use crate::tables::text;
use product_model::Product;
use std::alloc::{AllocError, Global};
use toml::Value;
use toml::value::Array;

/// The name of the product.
pub(crate) fn name(alloc: Global, product: &Product) -> Result<Value, AllocError>
    ensures { IfOk result (λ value. view value ≡ string product.now.name) }
{
    let _months = product.months();
    text(alloc, product.name())
}

/// The name of a state.
pub(crate) fn state(alloc: Global, product: &Product, state: usize) -> Result<Value, AllocError>
    requires { state < length product.now.states }
    ensures { IfOk result (λ value. view value ≡ state_data product.now state) }
{
    text(alloc, product.graph().name(state))
}

/// The names of all states.
pub(crate) fn states(alloc: Global, product: &Product) -> Result<Value, AllocError>
    ensures { IfOk result (λ value. view value ≡ array_of (map string product.now.states)) }
{
    let mut items = Array::new(alloc);
    for i in 0..product.graph().states() {
        items.push(state(alloc, product, i)?)?;
    }
    Ok(Value::from(items))
}
