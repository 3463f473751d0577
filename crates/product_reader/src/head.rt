//! The names of the states, and the states and transitions of a file.

ghost use Rattle.std.specs.Prelude.{◌≡◌, IfOk, map};
ghost use Rattle.toml.specs.View.{table_view};
ghost use Rattle.model_specs.specs.RecordRules.{IsWellFormed};
ghost use Rattle.state_graph.specs.StateGraphs.{texts_of};
ghost use Rattle.product_file.specs.HeadRules.{state_names};
ghost use Rattle.product_file.specs.TransitionRule.{pair_of, transition_items};
ghost use Rattle.product_file.specs.Reads.{product_of};
ghost use Rattle.product_model.specs.Views.{graph_of};

use file_tree::{item, pair_of, states, text_in, transitions};
use state_graph::Graph;
use std::alloc::{AllocError, Global};
use toml::Table;

// The names of the states, in the file's order.
fn names_of(alloc: Global, tree: &Table) -> Result<Vec<Vec<u8>>, AllocError>
    ensures { IfOk result (λ names. texts_of names.items ≡ state_names (table_view tree.now)) }
{
    let states = states(tree);
    let mut names = Vec::new(alloc);
    for i in 0..states.len() {
        names.push(text_in(item(states, i)).as_bytes().to_vec(alloc)?)?;
    }
    Ok(names)
}

// The pairs of states of the transitions, in the file's order.
fn pairs_of(alloc: Global, tree: &Table) -> Result<Vec<(usize, usize)>, AllocError>
    ensures { IfOk result (λ pairs. pairs.items ≡
        map (pair_of (table_view tree.now)) (transition_items (table_view tree.now))) }
{
    let transitions = transitions(tree);
    let mut pairs = Vec::new(alloc);
    for k in 0..transitions.len() {
        pairs.push(pair_of(tree, item(transitions, k)))?;
    }
    Ok(pairs)
}

/// The states and transitions of a file that breaks no rule.
pub(crate) fn graph_from(alloc: Global, tree: &Table) -> Result<Graph, AllocError>
    requires { IsWellFormed (product_of (table_view tree.now)) }
    ensures { IfOk result (λ graph. graph ≡ graph_of (product_of (table_view tree.now))) }
{
    Graph::new(alloc, names_of(alloc, tree)?, pairs_of(alloc, tree)?)
}
