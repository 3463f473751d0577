//! Texts of product files. The function says what they read as and returns at once.

ghost use Rattle.file_instances.specs.FileInstances.{FurtherReads, NineStates, GrowingAmountBreaks};

/// A whole product; nine states, which format 2 has and format 1 has not; and an amount that grows above its limit
/// after the first month.
pub fn texts_read()
    ensures product { FurtherReads }
    ensures states { NineStates }
    ensures amount { GrowingAmountBreaks }
{}
