//! What holds of the sheets of all answers. Each function says a law and returns at once.

ghost use Rattle.answer_sheets.specs.Laws.{AuditsAreWhole, ComparisonsAreWhole, ReportsAreWhole, TotalsAreWhole};
ghost use Rattle.answer_sheets.specs.Laws.{ChangesAreObjects, ClaimsAreObjects, ReportRowsAreObjects};
ghost use Rattle.answer_sheets.specs.Laws.{TotalsAreObjects};

/// No row of an answer is left out: a sheet has as many rows as the answer, and each is that of the answer's row in its
/// place.
pub fn no_row_is_left_out()
    ensures reports { ReportsAreWhole }
    ensures comparisons { ComparisonsAreWhole }
    ensures audits { AuditsAreWhole }
    ensures totals { TotalsAreWhole }
{}

/// No field is left out in JSON: the object of a row has each field of the row under the name of its column.
pub fn rows_are_objects()
    ensures reports { ReportRowsAreObjects }
    ensures comparisons { ChangesAreObjects }
    ensures audits { ClaimsAreObjects }
    ensures totals { TotalsAreObjects }
{}
