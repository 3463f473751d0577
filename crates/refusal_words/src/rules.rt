//! The rules of a product file, and what each demands.

ghost use Rattle.std.specs.Prelude.{◌≡◌, slice_get};
ghost use Rattle.refusal_words.specs.Rules.{rule_of, rules, sentence_of};

/// A rule of a product file, in their order.
#[derive(Clone, Copy, Debug, PartialEq, Eq)]
pub enum Rule {
    Keys,
    Format,
    Names,
    Term,
    Denominator,
    Start,
    Transitions,
    Pieces,
    Coefficients,
    Steps,
    Amounts,
    Lumps,
    Payers,
    Pattern,
    Interest,
    Intensities,
    Exits,
    Bound,
}

// The rules in their order, from rule 1 on.
const RULES: [Rule; 18] = [
    Rule::Keys,
    Rule::Format,
    Rule::Names,
    Rule::Term,
    Rule::Denominator,
    Rule::Start,
    Rule::Transitions,
    Rule::Pieces,
    Rule::Coefficients,
    Rule::Steps,
    Rule::Amounts,
    Rule::Lumps,
    Rule::Payers,
    Rule::Pattern,
    Rule::Interest,
    Rule::Intensities,
    Rule::Exits,
    Rule::Bound,
];

// The rule that so many stand before.
fn rule_after(count: usize) -> Option<Rule>
    ensures { result ≡ slice_get rules count }
{
    RULES.get(count).copied()
}

impl Rule {
    /// The rule with a number, if there is one.
    pub fn with_number(number: u8) -> Option<Rule>
        ensures { result ≡ rule_of number }
    {
        if number == 0 {
            return None;
        }
        rule_after(usize::from(number) - 1)
    }

    /// What the rule demands, without a line's end.
    pub fn sentence(self) -> &'static [u8]
        ensures { result.now ≡ sentence_of self }
    {
        match self {
            Rule::Keys =>
                b"the file has the keys of a product, each with its type, and no other key",
            Rule::Format => b"format is 1 or 2",
            Rule::Names =>
                b"there are 1 to 8 states, in format 2 up to 12, no two alike; the name has 1 to 40 bytes and \
                each state's 1 to 24, all of them letters, digits, '.', '_' and '-'",
            Rule::Term => b"months is from 1 to 1200",
            Rule::Denominator => b"den is from 1 to 1000000000000",
            Rule::Start => b"start is the name of a state",
            Rule::Transitions =>
                b"a transition has from, to and rate, perhaps sum, and no other key; it leads from a state \
                to another one, and no earlier one does so",
            Rule::Pieces =>
                b"the pieces of a curve start at month 0, each later one after the one before, all below months",
            Rule::Coefficients =>
                b"in a piece of s months each coefficient c_i times s^i is at most 10^22 in size",
            Rule::Steps =>
                b"a sojourn has state and steps, and no other one has its state; steps start at month 0, each \
                later one after the one before, all below months",
            Rule::Amounts => b"an amount is at most 1000000000000 in size, in each month",
            Rule::Lumps =>
                b"a lump has month, state and amount; the month is from 0 to months, the amount at most \
                1000000000000 in size, and no earlier lump has the same month and state",
            Rule::Payers =>
                b"premium has payers, until and every; there is a payer, each names a state, and no two the same",
            Rule::Pattern => b"until is from 1 to months, and every from 0 to 1200",
            Rule::Interest => b"the force of interest is from -0.02 to 0.25 a year",
            Rule::Intensities => b"an intensity is not negative",
            Rule::Exits =>
                b"the greatest intensities of a month out of one state add up to at most 2 a year",
            Rule::Bound => b"the bound on all reserves is at most 2^66 units of 1/1024 minor units",
        }
    }
}
