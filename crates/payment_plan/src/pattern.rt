//! The premium pattern, and which of the two plans is meant.

ghost use Rattle.std.specs.Prelude.{◌≡◌};
ghost use Rattle.payment_plan.specs.Records.{pattern_rule_of};
ghost use Rattle.payment_plan.specs.Tables.{pays_in_month, pays_at_date};

/// Which payments: those of the file, or the premium pattern with unit amounts.
#[derive(Clone, Copy, Debug, PartialEq, Eq)]
pub enum Which {
    Benefits,
    Pattern,
}

/// The pattern of the premium: 1 a year in the payer states in months 0 to `until - 1` where `every` is 0, and else 1
/// in the payer states at the dates 0, `every`, `2 * every`, .. below `until`. Where there is no premium, there are no
/// payers, and `until` and `every` are 0.
#[derive(Debug, PartialEq, Eq, Drop)]
pub struct PatternRule {
    pub payers: Vec<usize>,
    pub until: u32,
    pub every: u32,
}

impl PatternRule {
    // Whether the pattern pays continuously in a state in a month.
    pub(crate) fn pays_in(&self, state: usize, month: u32) -> bool
        ensures { result ≡ pays_in_month (pattern_rule_of self.now) state month }
    {
        self.every == 0 && month < self.until && self.payers.contains(&state)
    }

    // Whether the pattern pays in the payer states at a date.
    pub(crate) fn pays_at(&self, date: u32) -> bool
        ensures { result ≡ pays_at_date (pattern_rule_of self.now) date }
    {
        self.every != 0 && date < self.until && date % self.every == 0
    }
}
