//! What a product's parts say is what the product says. Each function says a law and returns at once.

ghost use Rattle.product_model.specs.PartLaws.{PairsAgree, ExitsAgree, PlansAgree};

/// The pair of states of a transition.
pub fn pairs_agree()
    ensures { PairsAgree }
{}

/// The exits of a state.
pub fn exits_agree()
    ensures { ExitsAgree }
{}

/// The payments of the file, and the premium pattern as a plan of its own.
pub fn plans_agree()
    ensures { PlansAgree }
{}
