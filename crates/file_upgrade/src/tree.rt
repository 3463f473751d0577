//! The tree of a file.

ghost use Rattle.std.specs.Prelude.{◌≡◌, IfOk, OnOk};
ghost use Rattle.toml.specs.View.{table_view};
ghost use Rattle.file_upgrade.specs.FileTree.{file_tree, members_but_premium, with_premium};

use crate::curves::{pieces, transitions};
use crate::head::{name, state, states};
use crate::payments::{lumps, premium, sojourns};
use crate::tables::put;
use product_model::Product;
use std::alloc::{AllocError, Global};
use toml::{Table, Value};

// The whole tree but the premium.
fn tree_but_premium(alloc: Global, product: &Product) -> Result<Table, AllocError>
    ensures { IfOk result (λ tree. table_view tree ≡ members_but_premium product.now) }
{
    let mut tree = Table::new(alloc);
    put(alloc, &mut tree, "format", Value::from(2u32))?;
    put(alloc, &mut tree, "name", name(alloc, product)?)?;
    put(alloc, &mut tree, "months", Value::from(product.months()))?;
    put(alloc, &mut tree, "den", Value::from(product.den()))?;
    put(
        alloc,
        &mut tree,
        "start",
        state(alloc, product, product.start())?,
    )?;
    put(alloc, &mut tree, "states", states(alloc, product)?)?;
    put(
        alloc,
        &mut tree,
        "interest",
        pieces(alloc, product.interest().pieces())?,
    )?;
    put(alloc, &mut tree, "transition", transitions(alloc, product)?)?;
    put(alloc, &mut tree, "sojourn", sojourns(alloc, product)?)?;
    put(alloc, &mut tree, "lump", lumps(alloc, product)?)?;
    Ok(tree)
}

// Puts the premium where there are payers.
fn put_premium(alloc: Global, tree: &mut Table, product: &Product) -> Result<(), AllocError>
    ensures { OnOk result (table_view tree.new
        ≡ with_premium product.now product.now.pattern.payers (table_view tree.old)) }
{
    if !product.plan().pattern().payers.is_empty() {
        put(alloc, tree, "premium", premium(alloc, product)?)?;
    }
    Ok(())
}

/// The tree of a product as a file of format 2.
pub(crate) fn file_tree(alloc: Global, product: &Product) -> Result<Table, AllocError>
    ensures { IfOk result (λ tree. table_view tree ≡ file_tree product.now) }
{
    let mut tree = tree_but_premium(alloc, product)?;
    put_premium(alloc, &mut tree, product)?;
    Ok(tree)
}
