//! The product of a file that breaks no rule.

ghost use Rattle.std.specs.Prelude.{◌≡◌, IfOk};
ghost use Rattle.toml.specs.View.{table_view};
ghost use Rattle.whole_laws.specs.Whole.{natural_part};
ghost use Rattle.model_specs.specs.RecordRules.{IsWellFormed};
ghost use Rattle.product_file.specs.Reads.{product_of};

use crate::curves::{interest_from, rates_from};
use crate::head::graph_from;
use crate::payments::plan_from;
use file_tree::{month_of, state_of, text_of, whole_of};
use product_model::Product;
use std::alloc::{AllocError, Global};
use toml::Table;

// The product's name.
fn name_from(alloc: Global, tree: &Table) -> Result<Vec<u8>, AllocError>
    ensures { IfOk result (λ name. name.items ≡ (product_of (table_view tree.now)).name) }
{
    text_of(tree, "name").as_bytes().to_vec(alloc)
}

// The index of the start state.
fn start_from(tree: &Table) -> usize
    ensures { result ≡ (product_of (table_view tree.now)).start }
{
    state_of(tree, text_of(tree, "start")).unwrap_or(0)
}

// The term.
fn months_from(tree: &Table) -> u32
    requires { IsWellFormed (product_of (table_view tree.now)) }
    ensures { result ≡ (product_of (table_view tree.now)).months }
{
    month_of(whole_of(tree, "months"))
}

// The common denominator.
fn denominator_from(tree: &Table) -> i64
    ensures { natural_part result ≡ (product_of (table_view tree.now)).den }
{
    whole_of(tree, "den")
}

/// The product of a tree that breaks none of rules 1 to 14.
pub(crate) fn product_from(alloc: Global, tree: &Table) -> Result<Product, AllocError>
    requires { IsWellFormed (product_of (table_view tree.now)) }
    ensures { IfOk result (λ product. product ≡ product_of (table_view tree.now)) }
{
    let name = name_from(alloc, tree)?;
    let graph = graph_from(alloc, tree)?;
    let start = start_from(tree);
    let months = months_from(tree);
    let den = denominator_from(tree);
    let interest = interest_from(alloc, tree, months)?;
    let rates = rates_from(alloc, tree, months)?;
    let plan = plan_from(alloc, tree, graph.states(), months)?;
    Ok(Product::new(name, graph, start, months, den, interest, rates, plan))
}
