//! The first part in which two bases cannot be compared.

ghost use Rattle.std.specs.Prelude.{◌≡◌, length};
ghost use Rattle.basis_compare.specs.Bases.{differing_numbers, differing_names, first_difference};

use product_model::Product;
use state_graph::Graph;

/// The first part that is broken: 1, the terms differ; 2, the denominators; 3, the numbers of states. `a` and `b` are
/// the two numbers. 4, the names of a state differ, and both are the index of the first such state.
#[derive(Clone, Copy, Debug, PartialEq, Eq)]
pub struct CompareBreak {
    pub part: u8,
    pub a: u64,
    pub b: u64,
}

// The part in which both have a number, if these differ.
fn differing_numbers(part: u8, a: u64, b: u64) -> Option<CompareBreak>
    ensures { result ≡ differing_numbers part a b }
{
    if a == b {
        None
    } else {
        Some(CompareBreak { part, a, b })
    }
}

// The part of the names, if a state is named otherwise.
fn differing_names(part: u8, a: &Graph, b: &Graph) -> Option<CompareBreak>
    requires { length a.now.names ≡ length b.now.names }
    ensures { result ≡ differing_names part a.now.names b.now.names }
{
    for state in 0..a.states() {
        if a.name(state) != b.name(state) {
            let index = state as u64;
            return Some(CompareBreak {
                part,
                a: index,
                b: index,
            });
        }
    }
    None
}

/// The first part that is broken.
pub(crate) fn first_difference(a: &Product, b: &Product) -> Option<CompareBreak>
    ensures { result ≡ first_difference a.now b.now }
{
    if let Some(broken) = differing_numbers(1, u64::from(a.months()), u64::from(b.months())) {
        return Some(broken);
    }
    if let Some(broken) = differing_numbers(2, a.den() as u64, b.den() as u64) {
        return Some(broken);
    }
    let (old, new) = (a.graph(), b.graph());
    if let Some(broken) = differing_numbers(3, old.states() as u64, new.states() as u64) {
        return Some(broken);
    }
    differing_names(4, old, new)
}
