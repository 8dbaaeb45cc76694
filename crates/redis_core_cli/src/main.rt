//! Loads a file where the words name one, serves a stream of requests, and saves the world where they name a file for that: reads
//! requests from standard input, and writes the replies to standard output and what ended the run to standard error.
#![tactic(auto)]

use outside::StdSink;
use program_top::process::{run_with, words_given};
use saving_top::process::Saving;
use std::process::ExitCode;

fn main(rt: HostRuntime) -> ExitCode {
    let mut notes = StdSink::new(rt.stderr());
    run_with(&Saving, &rt, words_given(&rt), &mut notes)
}
