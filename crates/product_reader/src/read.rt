//! Reads a product file.

ghost use Rattle.std.specs.Prelude.{IfOk};
ghost use Rattle.toml.specs.View.{table_view};
ghost use Rattle.rule_breaks.specs.Breaks.{break_of};
ghost use Rattle.product_file.specs.Reads.{reads};
ghost use Rattle.product_file.specs.Verdict.{ReadsProduct, BreaksInTree, IsNotToml};
ghost use Rattle.product_reader.specs.Readings.{IsReadingOf};
ghost use Rattle.product_reader.specs.Refusals.{ComesWhere};

use crate::product::product_from;
use file_checks::first_break;
use product_file::read_products_are_well_formed;
use product_model::Product;
use rule_breaks::RuleBreak;
use std::alloc::{AllocError, Global};
use thiserror::Error;
use toml::Table;

/// Why no product was read.
#[derive(Clone, Copy, Debug, PartialEq, Eq, Error)]
pub enum ReadError {
    #[error("the file is not TOML")]
    NotToml,
    #[error("the file breaks a rule")]
    Rule(RuleBreak),
    #[error("out of memory")]
    Memory,
}

// What a tree reads as: its product, or the rule that it breaks first.
fn read_tree(alloc: Global, tree: &Table) -> Result<Product, ReadError>
    ensures { IsReadingOf result (reads (table_view tree.now)) }
{
    // a tree that breaks no rule reads as a product that is well formed
    read_products_are_well_formed();
    match first_break(alloc, tree) {
        Ok(Some(found)) => Err(ReadError::Rule(found)),
        Ok(None) => match product_from(alloc, tree) {
            Ok(product) => Ok(product),
            Err(_) => Err(ReadError::Memory),
        },
        Err(_) => Err(ReadError::Memory),
    }
}

/// Reads the product of a file from its bytes, in either format. Each answer but `Memory`, which may come at any time,
/// comes exactly where the clauses say.
pub fn read_product(alloc: Global, text: &[u8]) -> Result<Product, ReadError>
    ensures ok { IfOk result (ReadsProduct text.now) }
    ensures not_toml { ComesWhere result ReadError.NotToml (IsNotToml text.now) }
    ensures rule { (found : RuleBreak) → ComesWhere result (ReadError.Rule found)
        (BreaksInTree text.now (break_of found)) }
{
    match toml::table_from_slice(alloc, text) {
        Ok(tree) => read_tree(alloc, &tree),
        Err(error) if error.is_memory() => Err(ReadError::Memory),
        Err(_) => Err(ReadError::NotToml),
    }
}
