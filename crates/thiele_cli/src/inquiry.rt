// What a command asks, and of which files or seed.
ghost use Rattle.std.specs.Prelude.{◌≡◌};
ghost use Rattle.command_words.specs.Commands.{request_of};
ghost use Rattle.thiele_cli.specs.Inquiries.{asked_by, IsWellAsked};
ghost use Rattle.thiele_cli.specs.Questions.{asked_of, IsRead};

use crate::changing::Change;
use crate::page::Page;
use crate::pair_question::PairQuestion;
use crate::question::Question;
use command_words::Command;

/// What is asked, by the names of the files.
#[derive(Clone, Copy)]
pub enum Inquiry<'a> {
    /// Something of the product of a file.
    OfFile(Question, &'a str),
    /// Something of the products of two files.
    OfFiles(PairQuestion, &'a str, &'a str),
    /// The product file of a seed.
    OfSeed(u64),
    /// The reserves of its product.
    LoadOf(u64),
    /// Which claims of a file are at most so many millionths away from the reserves of a product.
    OfClaims(&'a str, &'a str, i128),
    /// The totals of a portfolio.
    OfPortfolio(&'a str),
    /// The product of a file, changed.
    OfChange(&'a str, Change<'a>),
    /// The sums of totals that a file holds.
    OfShards(&'a str),
    /// What the program tells of itself.
    OfPage(Page),
}

/// What a command asks.
pub fn inquiry_of(command: Command<'_>) -> Inquiry<'_>
    requires { IsRead (request_of command) }
    ensures asked { asked_by result ≡ asked_of (request_of command.entry) }
    ensures well { IsWellAsked (asked_by result) }
{
    match command {
        Command::Check(name) => Inquiry::OfFile(Question::Limits, name),
        Command::Value(name) => Inquiry::OfFile(Question::ValueAtIssue, name),
        Command::Reserves(name, every) => Inquiry::OfFile(Question::Reserves(every), name),
        Command::Occupancy(name, every) => Inquiry::OfFile(Question::Occupancy(every), name),
        Command::Moments(name, every) => Inquiry::OfFile(Question::Moments(every), name),
        Command::Premium(name) => Inquiry::OfFile(Question::Premium, name),
        Command::Generate(seed) => Inquiry::OfSeed(seed),
        Command::Load(seed) => Inquiry::LoadOf(seed),
        Command::Upgrade(name) => Inquiry::OfFile(Question::Upgraded, name),
        Command::Join(first, second) => Inquiry::OfFiles(PairQuestion::Joined, first, second),
        Command::Compare(first, second, every) => {
            Inquiry::OfFiles(PairQuestion::Changes(every), first, second)
        }
        Command::Audit(name, claims, eps) => Inquiry::OfClaims(name, claims, eps),
        Command::Portfolio(csv) => Inquiry::OfPortfolio(csv),
        Command::Shift(name, rate) => Inquiry::OfChange(name, Change::Shifted(rate)),
        Command::Multiply(name, from, to, factor) => {
            Inquiry::OfChange(name, Change::Multiplied(from, to, factor))
        }
        Command::Charge(name, amount) => Inquiry::OfChange(name, Change::Charged(amount)),
        Command::Merge(csv) => Inquiry::OfShards(csv),
        Command::Help => Inquiry::OfPage(Page::Help),
        Command::Version => Inquiry::OfPage(Page::Version),
    }
}
