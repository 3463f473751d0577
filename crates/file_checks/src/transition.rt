//! Rule 7: the transitions.

ghost use Rattle.std.specs.Prelude.{◌≡◌, ◌<◌, length, None};
ghost use Rattle.toml.specs.View.{table_view};
ghost use Rattle.product_file.specs.Checks.{first_failed};
ghost use Rattle.product_file.specs.HeadRules.{rule_3};
ghost use Rattle.product_file.specs.TransitionRule.{transition_items, is_good_transition, rule_7};

use file_tree::{
    has_pair, is_table_of, item, items_before, pair_of, state_at, transition_keys, transitions,
};
use toml::Table;

// Whether the transition at a place is one, names two different states, and no earlier one has the same pair.
fn is_good_transition(tree: &Table, k: usize) -> bool
    requires { k < length (transition_items (table_view tree.now)) }
    ensures { result ≡ is_good_transition (table_view tree.now) k }
{
    let values = transitions(tree);
    let value = item(values, k);
    let pair = pair_of(tree, value);
    let is_new = !has_pair(tree, items_before(values, k), pair);
    is_table_of(value, &transition_keys())
        & state_at(tree, "from", value).is_some()
        & state_at(tree, "to", value).is_some()
        & (pair.0 != pair.1)
        & is_new
}

/// The first place that breaks rule 7: the number of a transition.
pub(crate) fn transition_break(tree: &Table) -> Option<u32>
    requires { first_failed (rule_3 (table_view tree.now)) ≡ None }
    ensures { result ≡ first_failed (rule_7 (table_view tree.now)) }
{
    let count = transitions(tree).len();
    for k in 0..count {
        if !is_good_transition(tree, k) {
            return Some(k as u32);
        }
    }
    None
}
