//! Keys of a file that no product has.

ghost use Rattle.std.specs.Prelude.{◌≡◌, find, option_map, string_bytes};
ghost use Rattle.toml.specs.View.{table_view};
ghost use Rattle.product_file.specs.Members.{keys_of};
ghost use Rattle.refusal_words.specs.FileNames.{is_other_key, other_key};

use file_tree::top_keys;
use toml::Table;

// Whether no product has a key of this name.
fn is_other_key(name: &str) -> bool
    ensures { result ≡ is_other_key name.now }
{
    !top_keys().iter().any(|key| name == key.name)
}

// The first key of the file that no product has.
fn first_other_key(tree: &Table) -> Option<&String>
    ensures { option_map (λ key. string_bytes key.now) result ≡ find is_other_key (keys_of (table_view tree.now)) }
{
    tree.keys().find(|key| is_other_key(key.as_str()))
}

/// The first key of the file that no product has, and an empty text where it has none.
#[tactic(auto, unfolding(crate::specs::FileNames::other_key))]
pub fn other_key(tree: &Table) -> &str
    ensures { result.now ≡ other_key (table_view tree.now) }
{
    match first_other_key(tree) {
        Some(key) => key.as_str(),
        None => "",
    }
}
