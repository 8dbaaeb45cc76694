//! Loads a file where the words name one, and serves several sessions: reads pieces of their requests from standard input, and writes
//! units of their replies to standard output and what ended the run to standard error.
#![tactic(auto)]

use outside::StdSink;
use program_top::process::{run_with, words_given};
use sessions_top::process::Sessions;
use std::process::ExitCode;

fn main(rt: HostRuntime) -> ExitCode {
    let mut notes = StdSink::new(rt.stderr());
    run_with(&Sessions, &rt, words_given(&rt), &mut notes)
}
