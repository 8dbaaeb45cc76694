//! The top call.

ghost use Rattle.std.specs.Prelude.{◌≡◌, ◌^◌, ◌≤◌, [], map, string_bytes};
ghost use Rattle.object_codec.specs.Limits.{AreInRange};
ghost use Rattle.program_top.specs.Given.{Outside, given_by};
ghost use Rattle.program_top.specs.WordsRead.{AreTaken, given_read, options_read};
ghost use Rattle.program_top.specs.Given.{Run};
ghost use Rattle.program_top.specs.Running.{Drops};
ghost use Rattle.program_top.specs.Stepped.{Leaves, RunsNoted};
ghost use Rattle.program_top.specs.TopAnswers.{TopAnswers};

use crate::ending::{Ending, served_to};
use crate::generating::generate;
use crate::lent::serve_noted;
use crate::notes::note;
use crate::starting::start;
use crate::words::{Given, Options, read_words};
use class_heap::ClassHeap;
use outside::{Clock, Conductor, Host, Pacer, Sink, Source};
use redis_core::Engine;
use serving::moment_of;
use std::alloc::Global;

/// Starts, serves where the run begins, and puts the line of how it ended into the notes. The engine is handed out as it was
/// left, where one began.
pub fn run_open<H: Host, I: Source, O: Sink, N: Sink>(
    alloc: Global,
    options: Options<'_>,
    host: &mut H,
    input: &mut I,
    output: &mut O,
    notes: &mut N,
    clock: &mut Box<dyn Clock>,
    pacers: Vec<Box<dyn Pacer>>,
) -> (Ending, Option<Engine<ClassHeap>>)
    requires limits { AreInRange options.limits }
    requires limit { options.max_input ≤ 2 ^ 62 }
    ensures { let before : Outside = record {
      host = H.seen host.old;
      input = I.seen input.old;
      output = O.seen output.old;
      notes = N.seen notes.old;
      clock = answers clock.old;
      pacers =
          map (λ b. (⟦<dyn Pacer as Pacer>⟧ b.vtable).pacing b.value) pacers.items;
    } in
        let after : Outside = record { host = H.seen host.new; input = I.seen input.new; output = O.seen output.new; notes = N.seen notes.new; clock = answers clock.new; pacers = [] } in
        RunsNoted (Leaves result.1) (Run (options_read options.entry)) before after result.0 }
{
    let moment = moment_of(clock);
    match start(alloc, options, host, moment) {
        Ok(mut engine) => {
            let mut conductor = Conductor::new(pacers, options.effort);
            let ended = serve_noted(
                alloc,
                &mut engine,
                input,
                output,
                notes,
                clock,
                &mut conductor,
                options.max_input,
            );
            (served_to(ended), Some(engine))
        }
        Err(ending) => {
            note(notes, ending);
            (ending, None)
        }
    }
}

// Starts, and serves where the run begins; the engine is dropped.
fn run<H: Host, I: Source, O: Sink, N: Sink>(
    alloc: Global,
    options: Options<'_>,
    host: &mut H,
    input: &mut I,
    output: &mut O,
    notes: &mut N,
    clock: &mut Box<dyn Clock>,
    pacers: Vec<Box<dyn Pacer>>,
) -> Ending
    requires limits { AreInRange options.limits }
    requires limit { options.max_input ≤ 2 ^ 62 }
    ensures { let before : Outside = record {
      host = H.seen host.old;
      input = I.seen input.old;
      output = O.seen output.old;
      notes = N.seen notes.old;
      clock = answers clock.old;
      pacers =
          map (λ b. (⟦<dyn Pacer as Pacer>⟧ b.vtable).pacing b.value) pacers.items;
    } in
        let after : Outside = record { host = H.seen host.new; input = I.seen input.new; output = O.seen output.new; notes = N.seen notes.new; clock = answers clock.new; pacers = [] } in
        RunsNoted Drops (Run (options_read options.entry)) before after result }
{
    let (ending, _left) = run_open(alloc, options, host, input, output, notes, clock, pacers);
    ending
}

/// A run with what the words are read as, and its line in the notes.
pub fn run_given<H: Host, I: Source, O: Sink, N: Sink>(
    alloc: Global,
    given: Given<'_>,
    host: &mut H,
    input: &mut I,
    output: &mut O,
    notes: &mut N,
    clock: &mut Box<dyn Clock>,
    pacers: Vec<Box<dyn Pacer>>,
) -> Ending
    requires { AreTaken given }
    ensures { let before : Outside = record {
      host = H.seen host.old;
      input = I.seen input.old;
      output = O.seen output.old;
      notes = N.seen notes.old;
      clock = answers clock.old;
      pacers =
          map (λ b. (⟦<dyn Pacer as Pacer>⟧ b.vtable).pacing b.value) pacers.items;
    } in
        let after : Outside = record { host = H.seen host.new; input = I.seen input.new; output = O.seen output.new; notes = N.seen notes.new; clock = answers clock.new; pacers = [] } in
        RunsNoted Drops (given_read given.entry) before after result }
{
    match given {
        Given::Wrong => {
            note(notes, Ending::Usage);
            Ending::Usage
        }
        Given::Run(options) => run(alloc, options, host, input, output, notes, clock, pacers),
        Given::Generate(count, options) => {
            let ending = generate(alloc, options, count, output, pacers);
            note(notes, ending);
            ending
        }
    }
}

/// Loads the file that the words name, serves the requests of the input, and says with which status the run ends. Where the
/// words ask for so many generated commands it runs those, takes no file, no input and no answer of the clock, and puts three
/// lines: `commands N`, `keys K`, how many keys database 0 has then, and `crc H`, the CRC of all replies.
///
/// The words are those behind the program's name: `--load FILE`, and the options whose values are numbers, each once at most
/// and each as `--name VALUE` or `--name=VALUE`. Anything else is status 1. The clock, in milliseconds, is read once before
/// all else, and once for each request. After each request but QUIT a plan is asked of the first pacer that isn't spent, and
/// done; each pacer is tuned to `--effort` before. The file is of the RDB format, version 9 to 11, and has at most as many bytes as
/// `--max-input` says, 2^40 where it doesn't: 6 where the host failed or has no file of the name, 7 where the format excludes
/// the file, 9 where it has more bytes. Then nothing is served.
/// Serving ends with 0 where the input ended after a whole request or a request ended the run, 2 where it breaks a rule of
/// RESP2, whose line stands behind the replies, 3 where it ended inside a request, 4 where the input failed, 5 where the
/// output failed, 9 where so many bytes were taken. Generated commands end with 0, or 5 where the output failed.
/// 8 is want of memory. Each status but 0 has its line in the notes.
#[tactic(none)]
pub fn redis_core<H: Host, I: Source, O: Sink, N: Sink>(
    alloc: Global,
    words: &[String],
    host: &mut H,
    input: &mut I,
    output: &mut O,
    notes: &mut N,
    clock: &mut Box<dyn Clock>,
    pacers: Vec<Box<dyn Pacer>>,
) -> u8
    ensures { let before : Outside = record {
      host = H.seen host.old;
      input = I.seen input.old;
      output = O.seen output.old;
      notes = N.seen notes.old;
      clock = answers clock.old;
      pacers =
          map (λ b. (⟦<dyn Pacer as Pacer>⟧ b.vtable).pacing b.value) pacers.items;
    } in
        let after : Outside = record { host = H.seen host.new; input = I.seen input.new; output = O.seen output.new; notes = N.seen notes.new; clock = answers clock.new; pacers = [] } in
        TopAnswers (given_by (map string_bytes words.now)) before after result }
{
    match read_words(alloc, words) {
        Ok(given) => run_given(alloc, given, host, input, output, notes, clock, pacers).status(),
        Err(_) => {
            note(notes, Ending::Memory);
            Ending::Memory.status()
        }
    }
}
