//! What holds of the tree of each seed. The function says a law and returns at once.

ghost use Rattle.workload_gen.specs.Laws.{GeneratedTreesAreValid};

/// The tree of each seed gives a product that breaks none of rules 1 to 18.
pub fn generated_trees_are_valid()
    ensures { GeneratedTreesAreValid }
{}
