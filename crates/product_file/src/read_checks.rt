//! Small files, beside what the rules say of them. Each function says what they read as and returns at once.

ghost use Rattle.product_file.specs.ReadInstances.{TermInsuranceReads, KeysBreak, StatesBreak, CurvesBreak};
ghost use Rattle.product_file.specs.ReadInstances.{PaymentsBreak, PatternBreaks};

/// A file that breaks no rule, and files that each break one.
pub fn files_read()
    ensures product { TermInsuranceReads }
    ensures keys { KeysBreak }
    ensures states { StatesBreak }
    ensures curves { CurvesBreak }
    ensures payments { PaymentsBreak }
    ensures pattern { PatternBreaks }
{}
