//! A run as a process: the words that it was given, and its exit code.

ghost use Rattle.std.specs.Prelude.{◌≡◌, ◌⊎◌, ℕ, List, IfOk, IfErr, OnErr, map, string_bytes};
ghost use Rattle.std.specs.Process.{exit_status};
ghost use Rattle.outside.specs.Streams.{SinkSeen};
ghost use Rattle.program_top.specs.Ends.{EndsBy, EndsWith, EndsAs};

use crate::ending::Ending;
use crate::notes::note;
use crate::words::behind;
use outside::Sink;
use std::alloc::AllocError;
use std::env;
use std::io::ErrorKind;
use std::process::ExitCode;

/// What a process runs with the words behind its name.
pub trait Program {
    // What such words come to: from the notes to those that it leaves, with a status.
    ghost comes_to: { List (List ℕ) → SinkSeen → SinkSeen → ℕ → Type 0 };

    /// Runs with these words over the real files, streams and clock, and answers the status. `Err` is want of memory, and then
    /// the notes are as they were.
    fn run<N: Sink>(
        &self,
        rt: &HostRuntime,
        words: &[String],
        notes: &mut N,
    ) -> Result<u8, AllocError>
        ensures status { IfOk result (λ status. comes_to (map string_bytes words.now) (N.seen notes.old) (N.seen notes.new) status) }
        ensures untouched { OnErr result (N.seen notes.new ≡ N.seen notes.old) };
}

/// The program's name and the words behind it. Words that are no text end as `Usage`, and want of memory as `Memory`.
pub fn words_given(rt: &HostRuntime) -> Result<Vec<String>, Ending>
    ensures { IfErr result (λ ending. (ending ≡ Ending.Usage) ⊎ (ending ≡ Ending.Memory)) }
{
    let words = match env::args(rt) {
        Ok(words) => words,
        Err(error) => {
            return Err(match error.kind() {
                ErrorKind::InvalidData => Ending::Usage,
                _ => Ending::Memory,
            });
        }
    };
    match words.collect(rt.alloc()) {
        Ok(words) => Ok(words),
        Err(_) => Err(Ending::Memory),
    }
}

// What is noted of a run that can't be begun, and its status.
fn not_begun<N: Sink>(notes: &mut N, ending: Ending) -> u8
    ensures { EndsBy ending (N.seen notes.old) (N.seen notes.new) result }
{
    note(notes, ending);
    ending.status()
}

// Runs with the words behind the program's name, and answers the status.
fn run_behind<P: Program, N: Sink>(
    program: &P,
    rt: &HostRuntime,
    words: &[String],
    notes: &mut N,
) -> u8
    ensures { EndsWith P.comes_to (map string_bytes words.now) (N.seen notes.old) (N.seen notes.new) result }
{
    match program.run(rt, behind(words), notes) {
        Ok(status) => status,
        Err(_) => not_begun(notes, Ending::Memory),
    }
}

/// Runs a program with these words, of which the first is its name, over the real files, streams and clock, and answers the
/// exit code. Where there are no words it notes why and runs nothing.
pub fn run_with<P: Program, N: Sink>(
    program: &P,
    rt: &HostRuntime,
    words: Result<Vec<String>, Ending>,
    notes: &mut N,
) -> ExitCode
    ensures { EndsAs P.comes_to words (N.seen notes.old) (N.seen notes.new) (exit_status result) }
{
    let status = match words {
        Ok(words) => run_behind(program, rt, &words, notes),
        Err(ending) => not_begun(notes, ending),
    };
    ExitCode::from(status)
}
