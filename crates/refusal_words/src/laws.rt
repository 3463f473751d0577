//! What places stand for. The functions say laws and return at once.

ghost use Rattle.toml.specs.Data.{Members};
ghost use Rattle.refusal_words.specs.Laws.{NamesAreOfTheRules, PlacesAreTold};

/// The curve, piece, list, step, state and payer of a place are those that the place encodes, and each place that a
/// rule has is told by what it stands for.
pub fn places_are_told()
    ensures { PlacesAreTold }
{}

/// The curve and the list that are named are those of which rules 8 to 11 speak.
pub fn names_are_of_the_rules()
    ensures { (tree : Members) → NamesAreOfTheRules tree }
{}
