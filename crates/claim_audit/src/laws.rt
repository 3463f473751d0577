//! What holds of all CSV texts. Each function says a law and returns at once.

ghost use Rattle.claim_audit.specs.Readings.{TextsHaveOneReading};

/// A CSV text has claims or a first wrong row, not both, and one such row with one first wrong part. So an audit fails
/// by a row exactly where it is that row, but for want of memory.
pub fn texts_have_one_reading()
    ensures { TextsHaveOneReading }
{}
