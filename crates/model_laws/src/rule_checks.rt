//! Products that meet the rules.

ghost use Rattle.model_laws.specs.RuleInstances.{LumpIsAdmissible};

/// A lump after a year can be valued.
pub fn rules_can_be_met()
    ensures { LumpIsAdmissible }
{}
