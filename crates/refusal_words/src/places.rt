//! What the place of a broken rule stands for.

ghost use Rattle.std.specs.Prelude.{◌≡◌};
ghost use Rattle.refusal_words.specs.Places.{word_of, name_place, payer_place, piece_place, place_of, step_place};
ghost use Rattle.refusal_words.specs.Places.{top_key_of};

use crate::rules::Rule;

/// A thing of a file with words of its own: a key of the top table, or what else there is once.
#[derive(Clone, Copy, Debug, PartialEq, Eq)]
pub enum Thing {
    Format,
    Name,
    Months,
    Den,
    Start,
    States,
    Interest,
    Transition,
    Sojourn,
    Lump,
    Premium,
    /// A key of the top table that is none of these.
    Another,
    Until,
    Every,
    Product,
}

// The keys in the order of rule 1.
const TOP_KEYS: [Thing; 11] = [
    Thing::Format,
    Thing::Name,
    Thing::Months,
    Thing::Den,
    Thing::Start,
    Thing::States,
    Thing::Interest,
    Thing::Transition,
    Thing::Sojourn,
    Thing::Lump,
    Thing::Premium,
];

/// Which thing of a file breaks a rule. All numbers count from 0, in the order of the file.
#[derive(Clone, Copy, Debug, PartialEq, Eq)]
pub enum Place {
    Thing(Thing),
    State(u32),
    Transition(u32),
    /// Curve 0 is the interest, curve 1 + k the intensity of transition k.
    Piece { curve: u32, piece: u32 },
    /// List k is the sum of transition k; behind the transitions come the sojourns.
    Step { list: u32, step: u32 },
    Lump(u32),
    Payer(u32),
    Month(u32),
}

impl Thing {
    // The key with a number, and another one past the last.
    fn with_number(number: u32) -> Thing
        ensures { result ≡ top_key_of number }
    {
        TOP_KEYS
            .get(number as usize)
            .copied()
            .unwrap_or(Thing::Another)
    }

    /// Its words.
    #[tactic(auto, unfolding(crate::specs::Places::word_of))]
    pub fn word(self) -> &'static str
        ensures { result.now ≡ word_of self }
    {
        match self {
            Thing::Format => "format",
            Thing::Name => "name",
            Thing::Months => "months",
            Thing::Den => "den",
            Thing::Start => "start",
            Thing::States => "states",
            Thing::Interest => "interest",
            Thing::Transition => "transition",
            Thing::Sojourn => "sojourn",
            Thing::Lump => "lump",
            Thing::Premium => "premium",
            Thing::Another => "another key",
            Thing::Until => "premium, until",
            Thing::Every => "premium, every",
            Thing::Product => "the product",
        }
    }
}

// Of names: the product's, the number of states, or a state.
fn name_place(number: u32) -> Place
    ensures { result ≡ name_place number }
{
    match number {
        0 => Place::Thing(Thing::Name),
        1 => Place::Thing(Thing::States),
        _ => Place::State(number - 2),
    }
}

// Of the premium table: its keys, or a payer.
fn payer_place(number: u32) -> Place
    ensures { result ≡ payer_place number }
{
    match number {
        0 => Place::Thing(Thing::Premium),
        _ => Place::Payer(number - 1),
    }
}

// How many places of a rule a curve or a list has room for.
const PLACES_OF_LIST: u32 = 4096;

// A piece of a curve.
fn piece_place(number: u32) -> Place
    ensures { result ≡ piece_place number }
{
    Place::Piece {
        curve: number / PLACES_OF_LIST,
        piece: number % PLACES_OF_LIST,
    }
}

// A step of a list.
fn step_place(number: u32) -> Place
    ensures { result ≡ step_place number }
{
    Place::Step {
        list: number / PLACES_OF_LIST,
        step: number % PLACES_OF_LIST,
    }
}

impl Place {
    /// What a place of a rule stands for.
    pub fn of_rule(rule: Rule, number: u32) -> Place
        ensures { result ≡ place_of rule number }
    {
        match rule {
            Rule::Keys => Place::Thing(Thing::with_number(number)),
            Rule::Format => Place::Thing(Thing::Format),
            Rule::Names => name_place(number),
            Rule::Term => Place::Thing(Thing::Months),
            Rule::Denominator => Place::Thing(Thing::Den),
            Rule::Start => Place::Thing(Thing::Start),
            Rule::Transitions => Place::Transition(number),
            Rule::Pieces | Rule::Coefficients => piece_place(number),
            Rule::Steps | Rule::Amounts => step_place(number),
            Rule::Lumps => Place::Lump(number),
            Rule::Payers => payer_place(number),
            Rule::Pattern if number == 0 => Place::Thing(Thing::Until),
            Rule::Pattern => Place::Thing(Thing::Every),
            Rule::Interest | Rule::Intensities | Rule::Exits => Place::Month(number),
            Rule::Bound => Place::Thing(Thing::Product),
        }
    }
}
