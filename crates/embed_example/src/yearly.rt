// From the bytes of a file to a text, or to why there is none.
ghost use Rattle.std.specs.Prelude.{◌≡◌, ◌<◌, [], IfOk};
ghost use Rattle.named_numbers.specs.Numbers.{months_of_year};
ghost use Rattle.reserve_report.specs.ReportText.{report_text};
ghost use Rattle.reserve_report.specs.Reports.{HasText, IsReport};
ghost use Rattle.reserve_report.specs.declared.report.Kind.TheVariants as kind;
ghost use Rattle.embed_example.specs.declared.yearly.Refusal.TheVariants.{Memory};
ghost use Rattle.embed_example.specs.YearlyReserves.{IsAdmissionOf, IsAnswerOn};

use grid_law::month_reserves;
use named_numbers::MONTHS_OF_YEAR;
use product_reader::{ReadError, read_product};
use rate_bounds::{AdmitError, Admitted, admit};
use report_columns::Column;
use reserve_report::{Kind, Report, from_table, report_bytes};
use rule_breaks::RuleBreak;
use std::alloc::{AllocError, Global};
use std::marker::Brand;
use std::sync::ledger::{Blank, Ledger};
use taylor_step::Steps;

/// Why a file has no yearly reserves.
#[derive(Clone, Copy, Debug, PartialEq, Eq)]
pub enum Refusal {
    /// It is no TOML text.
    NotToml,
    /// It breaks this rule first, at its least place.
    Rule(RuleBreak),
    /// Memory was refused, which may happen at any time.
    Memory,
}

impl From<AllocError> for Refusal {
    ghost from_gives = { λ _ e. e ≡ Memory };

    fn from(_: AllocError) -> Self {
        Refusal::Memory
    }
}

// The product of a file, admitted by all rules.
fn admitted_product(alloc: Global, file: &[u8]) -> Result<Admitted, Refusal>
    ensures { IsAdmissionOf file.now result }
{
    let product = match read_product(alloc, file) {
        Ok(product) => product,
        Err(ReadError::NotToml) => return Err(Refusal::NotToml),
        Err(ReadError::Rule(found)) => return Err(Refusal::Rule(found)),
        Err(ReadError::Memory) => return Err(Refusal::Memory),
    };
    match admit(alloc, product) {
        Ok(admitted) => Ok(admitted),
        Err(AdmitError::Rule(found)) => Err(Refusal::Rule(found)),
        Err(AdmitError::Memory) => Err(Refusal::Memory),
    }
}

// The reserves of a product each year, by a sweep that counts its steps.
fn report_of<L: Ledger>(
    alloc: Global,
    admitted: &Admitted,
    blank: Blank,
) -> Result<Report, AllocError>
    requires name { blank.name ≡ L.name }
    requires parts { blank.parts ≡ L.parts }
    requires some_parts { 0 < blank.parts }
    ensures report { IfOk result (IsReport admitted.now kind.Reserves months_of_year) }
    ensures text { IfOk result (HasText admitted.now) }
{
    let mut steps = Steps::<L>::open(blank);
    let _months = admitted.product().months();
    let table = month_reserves(alloc, admitted, MONTHS_OF_YEAR, &mut steps)?;
    let report = from_table(alloc, admitted, Kind::Reserves, &table)?;
    Ok(report)
}

// The text of a report, without columns.
fn text_of(alloc: Global, admitted: &Admitted, report: &Report) -> Result<Vec<u8>, AllocError>
    requires { HasText admitted.now report.now }
    ensures { IfOk result (λ text. text.items ≡ report_text admitted.now report.now []) }
{
    let mut columns: Vec<Box<dyn Column>> = Vec::new(alloc);
    let text = report_bytes(alloc, admitted.product(), report, &mut columns)?;
    Ok(text)
}

/// The text of a right report of the reserves of a file's product, in all states each twelve months, in the format of
/// `thiele_cli reserves FILE 12`, but without columns; or why there is none.
pub fn yearly_reserves(alloc: Global, file: &[u8]) -> Result<Vec<u8>, Refusal>
    ensures { IsAnswerOn file.now result }
{
    let admitted = admitted_product(alloc, file)?;
    let report = report_of::<Brand>(alloc, &admitted, Blank::new(1))?;
    let text = text_of(alloc, &admitted, &report)?;
    Ok(text)
}
