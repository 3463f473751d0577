// How a run ends.
ghost use Rattle.std.specs.Prelude.{◌≡◌};
ghost use Rattle.thiele_cli.specs.Ends.{status_of};

use crate::file_break::FileBreak;
use crate::policy_break::PolicyBreak;
use basis_compare::{Changes, CompareBreak};
use claim_audit::Audited;
use file_changes::ChangeBreak;
use joint_life::JoinBreak;
use portfolio_run::Totals;
use reserve_report::Report;
use rule_breaks::{RowBreak, RuleBreak};

/// How a run ended. `run` says when each end comes.
#[derive(Clone, Copy, Debug, PartialEq, Eq)]
pub enum End {
    /// The text of the command was written.
    Done,
    /// The words have no reading.
    BadWords,
    /// The file could not be fetched.
    FetchFault,
    /// The file has more than 1,048,576 bytes, of which this many were taken.
    TooLong { seen: u64 },
    /// The file is no TOML text.
    NotToml,
    /// The file breaks this rule first, at its least place.
    Rule(RuleBreak),
    /// The value of the premium pattern is too small: its interval begins here, in units of 2^-64.
    NoPremium { low: i128 },
    /// Some of the text could not be written.
    WriteFault,
    /// Memory was refused.
    Memory,
    /// The second file is refused by this cause.
    Second(FileBreak),
    /// The two lives cannot be joined: this part is the first that is broken.
    Join(JoinBreak),
    /// The product that is made of the files breaks this rule first.
    Derived(RuleBreak),
    /// The two bases first differ in this part.
    Compare(CompareBreak),
    /// This row of the table of the command is the first that is wrong, and this its first wrong part.
    Row(RowBreak),
    /// This product file of the portfolio is the first that is refused.
    Policy(PolicyBreak),
    /// The product cannot be changed so: this part is the first that is broken.
    Change(ChangeBreak),
}

impl End {
    /// The exit status of the program.
    pub fn status(self) -> u8
        ensures { result ≡ status_of self }
    {
        match self {
            End::Done => 0,
            End::BadWords => 2,
            End::FetchFault => 3,
            End::TooLong { .. } => 4,
            End::NotToml => 5,
            End::Rule(_) => 6,
            End::NoPremium { .. } => 7,
            End::WriteFault => 8,
            End::Memory => 9,
            End::Second(_) => 11,
            End::Join(_) => 12,
            End::Derived(_) => 13,
            End::Compare(_) => 16,
            End::Row(_) => 14,
            End::Policy(_) => 15,
            End::Change(_) => 17,
        }
    }
}

/// What was to be written, where it is no report.
#[derive(Drop)]
pub enum Extra {
    /// A report, a text without numbers, or nothing.
    Nothing,
    /// The changes between two bases, by `compare`.
    Compare(Changes),
    /// What is found of each claim, by `audit`.
    Audit(Audited),
    /// The totals by group, of `portfolio` and `merge`.
    Portfolio(Totals),
}

/// What a run answers: its end with its exit status, and the report where one was to be written, or what else was.
#[derive(Drop)]
pub struct Finish {
    pub status: u8,
    pub end: End,
    pub report: Option<Report>,
    pub extra: Extra,
}

impl Finish {
    /// The end with its status.
    pub fn of(end: End, report: Option<Report>, extra: Extra) -> Finish
        ensures status { result.status ≡ status_of end }
        ensures end { result.end ≡ end }
        ensures report { result.report ≡ report }
        ensures extra { result.extra ≡ extra }
    {
        Finish {
            status: end.status(),
            end,
            report,
            extra,
        }
    }
}
