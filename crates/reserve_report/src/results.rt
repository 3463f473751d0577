//! From results to reports.
ghost use Rattle.std.specs.Prelude.{◌≡◌, ◌<◌, IfOk};
ghost use Rattle.model_specs.specs.RecordRules.{IsWellFormed};
ghost use Rattle.reserve_report.specs.Reports.{HasText, IsReport, scale_in, what_in};
ghost use Rattle.reserve_report.specs.Results.{AreMomentsOf, IsPremiumOf, IsTableOf, IsValueOf, TellsPremium};
ghost use Rattle.reserve_report.specs.TableRows.{TellsTable, issue_row_of};

use crate::report::{Kind, Report};
use crate::table_rows::{moment_rows, rows_of};
use crate::tolerances::tolerances_of;
use fixed_interval::{MomentTable, PremiumTable, Printed, Table, Valued};
use payment_plan::Which;
use rate_bounds::Admitted;
use report_columns::{Note, What};
use std::alloc::{AllocError, Global};

impl Kind {
    // What the rows of its table are about, where it has one.
    fn what(self) -> What
        ensures { result ≡ what_in self }
    {
        match self {
            Kind::Occupancy => What::Occupancy,
            _ => What::Reserve,
        }
    }

    // The scale that it prints.
    fn scale(self, adm: &Admitted) -> u8
        ensures { result ≡ scale_in adm.now self }
    {
        match self {
            Kind::Occupancy => 0,
            _ => adm.scale(Which::Benefits) as u8,
        }
    }
}

// A row at issue, about the start state.
fn issue_row(adm: &Admitted, what: What, ends: &Printed) -> Note
    ensures row { result ≡ issue_row_of adm.now what ends.now }
    ensures lawful { IsWellFormed adm.now }
{
    Note {
        month: 0,
        state: adm.product().start() as u32,
        what,
        lo: ends.lo,
        hi: ends.hi,
    }
}

/// The report of the value at issue in the start state.
pub fn from_value(alloc: Global, adm: &Admitted, v: &Valued) -> Result<Report, AllocError>
    requires { IsValueOf adm.now v.now }
    ensures report { IfOk result (IsReport adm.now Kind.Value 1) }
    ensures degree { IfOk result (λ report. report.degree ≡ v.now.degree) }
    ensures text { IfOk result (HasText adm.now) }
{
    let row = issue_row(adm, What::Value, &v.interval.printed());
    let rows = vec![in alloc; row]?;
    Ok(Report {
        kind: Kind::Value,
        degree: v.degree,
        scale: Kind::Value.scale(adm),
        tolerance: tolerances_of(alloc, adm, &rows)?,
        rows,
    })
}

/// The report of a table: of reserves or of probabilities, by date and then by state.
pub fn from_table(
    alloc: Global,
    adm: &Admitted,
    kind: Kind,
    t: &Table,
) -> Result<Report, AllocError>
    requires every { 0 < t.now.every }
    requires table { IsTableOf adm.now kind t.now }
    ensures report { IfOk result (IsReport adm.now kind t.now.every) }
    ensures rows { IfOk result (TellsTable kind t.now) }
    ensures degree { IfOk result (λ report. report.degree ≡ t.now.degree) }
    ensures text { IfOk result (HasText adm.now) }
{
    let _months = adm.product().months();
    let rows = rows_of(alloc, kind.what(), t)?;
    Ok(Report {
        kind,
        degree: t.degree,
        scale: kind.scale(adm),
        tolerance: tolerances_of(alloc, adm, &rows)?,
        rows,
    })
}

/// The report of moments: the first moment, the second moment and the variance of each date and state.
pub fn from_moments(alloc: Global, adm: &Admitted, t: &MomentTable) -> Result<Report, AllocError>
    requires every { 0 < t.now.first.every }
    requires moments { AreMomentsOf adm.now t.now }
    ensures report { IfOk result (IsReport adm.now Kind.Moments t.now.first.every) }
    ensures degree { IfOk result (λ report. report.degree ≡ t.now.first.degree) }
    ensures text { IfOk result (HasText adm.now) }
{
    let _months = adm.product().months();
    let rows = moment_rows(alloc, t)?;
    Ok(Report {
        kind: Kind::Moments,
        degree: t.first.degree,
        scale: Kind::Moments.scale(adm),
        tolerance: tolerances_of(alloc, adm, &rows)?,
        rows,
    })
}

/// The report of a premium: the values of the benefits and of the premium pattern, and the equivalence premium.
pub fn from_premium(alloc: Global, adm: &Admitted, t: &PremiumTable) -> Result<Report, AllocError>
    requires { IsPremiumOf adm.now t.now }
    ensures report { IfOk result (IsReport adm.now Kind.Premium 1) }
    ensures premium { IfOk result (TellsPremium t.now) }
    ensures text { IfOk result (HasText adm.now) }
{
    let rows = vec![in alloc;
        issue_row(adm, What::Benefits, &t.benefits),
        issue_row(adm, What::Pattern, &t.pattern),
        issue_row(adm, What::Premium, &t.premium),
    ]?;
    Ok(Report {
        kind: Kind::Premium,
        degree: t.degree,
        scale: Kind::Premium.scale(adm),
        tolerance: tolerances_of(alloc, adm, &rows)?,
        rows,
    })
}
