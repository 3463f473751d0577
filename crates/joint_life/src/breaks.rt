//! The first part in which two lives cannot be joined.

ghost use Rattle.std.specs.Prelude.{◌≡◌};
ghost use Rattle.joint_life.specs.Breaks.{first_break};

use product_model::Product;

/// The first part that is broken, with the numbers of both lives: 1, the second life's term is shorter; 2, the
/// denominators differ; 3, there are more than twelve pairs of states, where the numbers are those of the states.
#[derive(Clone, Copy, Debug, PartialEq, Eq)]
pub struct JoinBreak {
    pub part: u8,
    pub a: u64,
    pub b: u64,
}

/// The most states of a product.
const MOST_STATES: usize = 12;

/// The first part that is broken.
pub(crate) fn first_break(a: &Product, b: &Product) -> Option<JoinBreak>
    ensures { result ≡ first_break a.now b.now }
{
    if b.months() < a.months() {
        return Some(JoinBreak {
            part: 1,
            a: u64::from(a.months()),
            b: u64::from(b.months()),
        });
    }
    if a.den() != b.den() {
        return Some(JoinBreak {
            part: 2,
            a: a.den() as u64,
            b: b.den() as u64,
        });
    }
    let (first, second) = (a.graph().states(), b.graph().states());
    if first * second > MOST_STATES {
        return Some(JoinBreak {
            part: 3,
            a: first as u64,
            b: second as u64,
        });
    }
    None
}
