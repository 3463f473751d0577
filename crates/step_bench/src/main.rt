//! Reads lines of a dimension, 3 or 12, and a number of steps, and prints for each what the numbers of all steps come
//! to: work to be timed beside the C program of bench/.
#![tactic(auto)]

mod systems;
mod work;

use std::io;
use std::marker::Brand;
use std::sync::ledger::Blank;
use work::answer;

fn main(rt: HostRuntime) -> io::Result<()> {
    for line in rt.lines(rt.alloc()) {
        let line = line?;
        let Some((dim, steps)) = line.as_str().split_once(' ') else {
            continue;
        };
        let Ok(steps) = steps.parse::<u32>() else {
            continue;
        };
        let dim = if dim == "3" { 3 } else { 12 };
        let total = answer::<Brand>(rt.alloc(), dim, steps, Blank::new(1))?;
        println!(rt; "{dim} {steps}: {total}")?;
    }
    Ok(())
}
