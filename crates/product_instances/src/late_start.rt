//! An intensity that begins in month 1. The function says what it comes to and returns at once.

ghost use Rattle.product_instances.specs.LateStart.{NobodyHasLeft};

/// At date 1 the probability of the start state is exactly 1, in every degree.
pub fn nobody_has_left()
    ensures { NobodyHasLeft }
{}
