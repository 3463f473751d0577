//! The exits of a product's states.

ghost use Rattle.std.specs.Prelude.{◌≡◌, ◌<◌, ◌≤◌, All, length, map};
ghost use Rattle.named_numbers.specs.Numbers.{most_states};
ghost use Rattle.model_specs.specs.MonthNumbers.{exits};

use product_model::{Product, exits_agree};
use state_graph::Edge;

/// The exits of a state.
pub(crate) fn exits_of(product: &Product, state: usize) -> &[Edge]
    requires { state < length product.now.states }
    ensures transitions { map (λ exit. exit.transition) result.now ≡ exits product.now state }
    ensures within { All (λ exit. exit.transition < length product.now.transitions) result.now }
    ensures few { length result.now ≤ most_states }
{
    exits_agree();
    product.graph().exits(state)
}
