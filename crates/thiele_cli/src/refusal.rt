// Why there is no answer, and the line that says so.
ghost use Rattle.std.specs.Prelude.{◌≡◌, ◌^◌, ◌≤◌, ◌++◌, unsigned_abs, codes, decimal, IfOk};
ghost use Rattle.thiele_cli.specs.Refusals.{refused_end, rule_words, file_words, row_line, premium_line, line_of};
ghost use Rattle.thiele_cli.specs.Replies.{HasLine};

use crate::end::End;
use crate::file_break::{FileBreak, push_rule};
use crate::policy_break::PolicyBreak;
use basis_compare::CompareBreak;
use decimal_out::{push_millionths, push_whole};
use file_changes::ChangeBreak;
use fixed_num::scale_floor;
use joint_life::JoinBreak;
use refusal_words::CsvTable;
use rule_breaks::{RowBreak, RuleBreak};
use std::alloc::{AllocError, Global};

/// Why there is no answer.
#[derive(Clone, Copy, Debug, PartialEq, Eq)]
pub enum Refusal {
    /// The words have no reading.
    Words,
    /// The file is refused, or the first one where the words name two.
    First(FileBreak),
    /// The second file is refused.
    Second(FileBreak),
    /// The value of the premium pattern is too small: its interval begins here, in units of 2^-64.
    Premium { low: i128 },
    /// The two lives cannot be joined: this part is the first that is broken.
    Join(JoinBreak),
    /// The product that is made of the files breaks this rule first.
    Derived(RuleBreak),
    /// The two bases first differ in this part.
    Compare(CompareBreak),
    /// This row of such a table is the first that is wrong, and this its first wrong part.
    Row(CsvTable, RowBreak),
    /// This product file of the portfolio is the first that is refused.
    Policy(PolicyBreak),
    /// The product cannot be changed so: this part is the first that is broken.
    Change(ChangeBreak),
}

/// The line that refuses a file, with these words before the cause.
fn file_text(alloc: Global, head: &[u8], cause: FileBreak) -> Result<Vec<u8>, AllocError>
    ensures { IfOk result (λ text. text.items ≡ head.now ++ file_words cause ++ codes "\n") }
{
    let mut text = head.to_vec(alloc)?;
    cause.push_words(&mut text)?;
    text.push(b'\n')?;
    Ok(text)
}

/// The line that refuses the product that is made of the files.
fn derived_text(alloc: Global, found: RuleBreak) -> Result<Vec<u8>, AllocError>
    ensures { IfOk result (λ text. text.items ≡ codes "refused derived " ++ rule_words found ++ codes "\n") }
{
    let mut text = b"refused derived ".to_vec(alloc)?;
    push_rule(&mut text, found)?;
    text.push(b'\n')?;
    Ok(text)
}

/// The line that refuses something by the first part that is broken, with these words before the part.
fn part_text(alloc: Global, head: &[u8], part: u8) -> Result<Vec<u8>, AllocError>
    ensures { IfOk result (λ text. text.items ≡ head.now ++ decimal part ++ codes "\n") }
{
    let mut text = head.to_vec(alloc)?;
    push_whole(&mut text, part)?;
    text.push(b'\n')?;
    Ok(text)
}

/// The line that refuses a table by its first wrong row.
fn row_text(alloc: Global, broken: RowBreak) -> Result<Vec<u8>, AllocError>
    ensures { IfOk result (λ text. text.items ≡ row_line broken) }
{
    let mut text = b"refused row ".to_vec(alloc)?;
    push_whole(&mut text, broken.row)?;
    text.extend_from_slice(b" part ")?;
    push_whole(&mut text, broken.part)?;
    text.push(b'\n')?;
    Ok(text)
}

/// The line that refuses a premium.
fn premium_text(alloc: Global, low: i128) -> Result<Vec<u8>, AllocError>
    requires { unsigned_abs low ≤ 2 ^ 100 }
    ensures { IfOk result (λ text. text.items ≡ premium_line low) }
{
    let mut text = b"refused premium low ".to_vec(alloc)?;
    push_millionths(&mut text, scale_floor(low, 0))?;
    text.push(b'\n')?;
    Ok(text)
}

impl Refusal {
    /// The end of a run that is refused, once its line is written.
    pub fn end(self) -> End
        ensures { result ≡ refused_end self }
    {
        match self {
            Refusal::Words => End::BadWords,
            Refusal::First(FileBreak::TooLong { seen }) => End::TooLong { seen },
            Refusal::First(FileBreak::NotToml) => End::NotToml,
            Refusal::First(FileBreak::Rule(found)) => End::Rule(found),
            Refusal::Second(cause) => End::Second(cause),
            Refusal::Premium { low } => End::NoPremium { low },
            Refusal::Join(broken) => End::Join(broken),
            Refusal::Derived(found) => End::Derived(found),
            Refusal::Compare(broken) => End::Compare(broken),
            Refusal::Row(_, broken) => End::Row(broken),
            Refusal::Policy(broken) => End::Policy(broken),
            Refusal::Change(broken) => End::Change(broken),
        }
    }

    /// The line that is written.
    pub fn line(self, alloc: Global) -> Result<Vec<u8>, AllocError>
        requires { HasLine self }
        ensures { IfOk result (λ text. text.items ≡ line_of self) }
    {
        match self {
            Refusal::Words => b"refused words\n".to_vec(alloc),
            Refusal::First(cause) => file_text(alloc, b"refused ", cause),
            Refusal::Second(cause) => file_text(alloc, b"refused second ", cause),
            Refusal::Premium { low } => premium_text(alloc, low),
            Refusal::Join(broken) => part_text(alloc, b"refused join part ", broken.part),
            Refusal::Derived(found) => derived_text(alloc, found),
            Refusal::Compare(broken) => part_text(alloc, b"refused compare part ", broken.part),
            Refusal::Row(_, broken) => row_text(alloc, broken),
            Refusal::Policy(broken) => broken.line(alloc),
            Refusal::Change(broken) => part_text(alloc, b"refused change part ", broken.part),
        }
    }
}
