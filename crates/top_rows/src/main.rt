//! Reads what runs of the program are given, and prints what becomes of each. The lines and the answers are data: stdin and
//! stdout.
#![tactic(auto)]

mod case;
mod lines;
mod noting;
mod planned;
mod running;
mod setting;
mod talking;
mod telling;
mod words;

use crate::case::Case;
use crate::lines::answer;
use std::io;

fn main(rt: HostRuntime) -> io::Result<()> {
    let text = io::read_to_string(rt.alloc(), rt.stdin())?;
    let mut case = Case::new(rt.alloc());
    for line in text.lines() {
        if let Some(answered) = answer(&mut case, rt.alloc(), line)? {
            let between = if answered.is_empty() { "" } else { " = " };
            println!(rt; "{line}{between}{answered}")?;
        }
    }
    Ok(())
}
