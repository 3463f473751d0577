//! Rules 15 to 17 at their limits, with the places at which they are broken. The function says what they come to and
//! returns at once.

ghost use Rattle.product_instances.specs.RuleLimits.{TwoExits, TwoEntries, LeastInterest, TouchingRate};
ghost use Rattle.product_instances.specs.RuleLimits.{FirstRuleFirst};

/// Exits of a state count together and entries do not; the least interest; an intensity that touches 0; rule 15 is
/// looked at before rule 16.
pub fn rules_break_in_order()
    ensures exits { TwoExits }
    ensures entries { TwoEntries }
    ensures interest { LeastInterest }
    ensures touching { TouchingRate }
    ensures order { FirstRuleFirst }
{}
