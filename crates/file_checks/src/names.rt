//! Rule 3: the names of the product and its states.

ghost use Rattle.std.specs.Prelude.{◌≡◌, ◌<◌, ◌≤◌, ◌&&◌, nat_lt, nat_le, IfSome, length};
ghost use Rattle.std.specs.List.{list_all};
ghost use Rattle.toml.specs.View.{table_view};
ghost use Rattle.named_numbers.specs.Numbers.{most_states};
ghost use Rattle.model_specs.specs.Names.{is_name_byte};
ghost use Rattle.whole_laws.specs.Whole.{list_of};
ghost use Rattle.product_file.specs.Checks.{first_failed};
ghost use Rattle.product_file.specs.HeadRules.{is_good_name, is_good_state, state_names, most_states_of, rule_3};

use file_tree::{has_name, is_format_1, item, items_before, states, text_in, text_of};
use named_numbers::{LONGEST_PRODUCT_NAME, LONGEST_STATE_NAME, MOST_STATES};
use toml::Table;

// The most states of a product in format 1.
const MOST_STATES_OF_FORMAT_1: usize = 8;

// Whether a name may have the byte.
fn is_name_byte(b: u8) -> bool
    ensures { result ≡ is_name_byte b }
{
    b.is_ascii_alphanumeric() || b == b'.' || b == b'_' || b == b'-'
}

// Whether the name has 1 to `most` bytes.
fn has_length(name: &str, most: usize) -> bool
    ensures { result ≡ (nat_lt 0 (length name.now) && nat_le (length name.now) most) }
{
    !name.is_empty() && name.len() <= most
}

// Whether a name may have each of the bytes.
fn has_name_bytes(name: &str) -> bool
    ensures { result ≡ list_all is_name_byte name.now }
{
    name.as_bytes().iter().all(|b| is_name_byte(*b))
}

// Whether the name has 1 to `most` bytes, each of which a name may have.
fn is_good_name(name: &str, most: usize) -> bool
    ensures { result ≡ is_good_name most name.now }
{
    has_length(name, most) && has_name_bytes(name)
}

// How many states a product may have, in the format of the file.
fn most_states(tree: &Table) -> usize
    ensures { result ≡ most_states_of (table_view tree.now) }
{
    if is_format_1(tree) {
        MOST_STATES_OF_FORMAT_1
    } else {
        MOST_STATES
    }
}

// Whether the state at a place is a string, a good name, and differs from all earlier ones.
fn is_good_state(tree: &Table, i: usize) -> bool
    requires { i < length (state_names (table_view tree.now)) }
    ensures { result ≡ is_good_state (table_view tree.now) i }
{
    let states = states(tree);
    let state = item(states, i);
    let name = text_in(state);
    let is_new = !has_name(items_before(states, i), name);
    state.is_str() & is_good_name(name, LONGEST_STATE_NAME) & is_new
}

// The first state that is not a good one.
fn state_break(tree: &Table) -> Option<u32>
    requires { length (state_names (table_view tree.now)) ≤ most_states }
    ensures value { result ≡ first_failed
        (list_of (length (state_names (table_view tree.now))) (is_good_state (table_view tree.now))) }
    ensures small { IfSome result (λ i. i < most_states) }
{
    let count = states(tree).len();
    for i in 0..count {
        if !is_good_state(tree, i) {
            return Some(i as u32);
        }
    }
    None
}

/// The first place that breaks rule 3: 0 for the product's name, 1 for the number of states, 2 + i for state i.
pub(crate) fn name_break(tree: &Table) -> Option<u32>
    ensures { result ≡ first_failed (rule_3 (table_view tree.now)) }
{
    if !is_good_name(text_of(tree, "name"), LONGEST_PRODUCT_NAME) {
        return Some(0);
    }
    let count = states(tree).len();
    if count < 1 || count > most_states(tree) {
        return Some(1);
    }
    match state_break(tree) {
        Some(i) => Some(2 + i),
        None => None,
    }
}
