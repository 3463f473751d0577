//! Values life insurance contracts that are Markov chains, each number as an interval that is proved to hold it.
#![tactic(auto)]

mod answer;
mod auditing;
mod changing;
mod command_answer;
mod comparison;
mod end;
mod explaining;
mod fault;
mod fetching;
mod file_break;
mod form;
mod inquiry;
mod joining;
mod loading;
mod merging;
mod page;
mod pair_question;
mod pieces;
mod policy_break;
mod portfolio;
mod question;
mod refusal;
mod run;
#[cfg(test)]
mod tests;
mod upgrading;
mod valuation;
mod verdict;

use end::{End, Finish};
use io_ports::{FileShelf, StdSink};
use report_columns::{Column, CsvColumn, SignColumn, WidthColumn};
use run::run;
use std::alloc::AllocError;
use std::process::ExitCode;
use std::{env, io};

/// The words after the program's name.
fn words_of(rt: &HostRuntime) -> io::Result<Vec<String>> {
    let mut words = Vec::new(rt.alloc());
    for (place, word) in env::args(rt)?.enumerate() {
        if place > 0 {
            words.push(word)?;
        }
    }
    Ok(words)
}

/// The run of these words on the files of the system and standard output, with three columns behind a report.
fn run_here(rt: &HostRuntime, words: &[String]) -> Result<Finish, AllocError> {
    let alloc = rt.alloc();
    let mut columns: Vec<Box<dyn Column>> = Vec::new(alloc);
    columns.push(Box::new(alloc, WidthColumn::new(alloc))?)?;
    columns.push(Box::new(alloc, SignColumn::new(alloc))?)?;
    columns.push(Box::new(alloc, CsvColumn::new(alloc))?)?;
    let mut shelf = FileShelf::new(rt, alloc);
    let mut sink = StdSink::new(io::writer(rt));
    Ok(run(alloc, words, &mut shelf, &mut sink, columns))
}

fn main(rt: HostRuntime) -> ExitCode {
    let words = match words_of(&rt) {
        Ok(words) => words,
        // any other error is an argument that is no UTF-8 text
        Err(error) if error.kind() == io::ErrorKind::OutOfMemory => {
            return ExitCode::from(End::Memory.status());
        }
        Err(_) => return ExitCode::from(End::BadWords.status()),
    };
    match run_here(&rt, &words) {
        Ok(finish) => ExitCode::from(finish.status),
        Err(_) => ExitCode::from(End::Memory.status()),
    }
}
