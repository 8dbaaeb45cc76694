//! The call of several sessions.

ghost use Rattle.std.specs.Prelude.{◌≡◌, ◌^◌, ◌≤◌, [], map, string_bytes};
ghost use Rattle.object_codec.specs.Limits.{AreInRange};
ghost use Rattle.program_top.specs.Given.{Outside, Run, given_by};
ghost use Rattle.program_top.specs.WordsRead.{AreTaken, given_read, options_read};
ghost use Rattle.sessions_top.specs.Stepped.{RunsNoted};
ghost use Rattle.sessions_top.specs.TopAnswers.{TopAnswers};

use crate::ending::{SessionsEnding, sessions_served_to};
use crate::noting::note_sessions;
use outside::{Clock, Conductor, Host, Pacer, Sink, Source};
use program_top::ending::Ending;
use program_top::starting::start;
use program_top::words::{Given, Options, read_words};
use serving::moment_of;
use session_desk::Desk;
use sessions::serve_sessions;
use std::alloc::Global;

// So many sessions are served.
const SESSIONS: usize = 16;

// Starts, and serves the sessions where the run begins.
fn run<H: Host, I: Source, O: Sink, N: Sink>(
    alloc: Global,
    options: Options<'_>,
    host: &mut H,
    input: &mut I,
    output: &mut O,
    notes: &mut N,
    clock: &mut Box<dyn Clock>,
    pacers: Vec<Box<dyn Pacer>>,
) -> SessionsEnding
    requires limits { AreInRange options.limits }
    requires limit { options.max_input ≤ 2 ^ 62 }
    ensures { let before : Outside = record {
      host = H.seen host.old;
      input = I.seen input.old;
      output = O.seen output.old;
      notes = N.seen notes.old;
      clock = answers clock.old;
      pacers =
          map (λ b. (⟦<dyn Pacer as Pacer>⟧ b.vtable).pacing b.value) pacers.items;
    } in
        let after : Outside = record { host = H.seen host.new; input = I.seen input.new; output = O.seen output.new; notes = N.seen notes.new; clock = answers clock.new; pacers = [] } in
        RunsNoted (Run (options_read options.entry)) before after result }
{
    let moment = moment_of(clock);
    match start(alloc, options, host, moment) {
        Ok(engine) => {
            let mut desk = Desk::new(alloc, engine);
            let mut conductor = Conductor::new(pacers, options.effort);
            let ended = serve_sessions(
                alloc,
                &mut desk,
                clock,
                &mut conductor,
                input,
                output,
                options.max_input,
                SESSIONS,
            );
            let ending = sessions_served_to(ended);
            note_sessions(notes, ending);
            ending
        }
        Err(ending) => {
            let ending = SessionsEnding::Run(ending);
            note_sessions(notes, ending);
            ending
        }
    }
}

// A run with what the words are read as, and its line in the notes.
fn run_given<H: Host, I: Source, O: Sink, N: Sink>(
    alloc: Global,
    given: Given<'_>,
    host: &mut H,
    input: &mut I,
    output: &mut O,
    notes: &mut N,
    clock: &mut Box<dyn Clock>,
    pacers: Vec<Box<dyn Pacer>>,
) -> SessionsEnding
    requires { AreTaken given }
    ensures { let before : Outside = record {
      host = H.seen host.old;
      input = I.seen input.old;
      output = O.seen output.old;
      notes = N.seen notes.old;
      clock = answers clock.old;
      pacers =
          map (λ b. (⟦<dyn Pacer as Pacer>⟧ b.vtable).pacing b.value) pacers.items;
    } in
        let after : Outside = record { host = H.seen host.new; input = I.seen input.new; output = O.seen output.new; notes = N.seen notes.new; clock = answers clock.new; pacers = [] } in
        RunsNoted (given_read given.entry) before after result }
{
    match given {
        Given::Run(options) => run(alloc, options, host, input, output, notes, clock, pacers),
        Given::Wrong | Given::Generate(..) => {
            note_sessions(notes, SessionsEnding::Run(Ending::Usage));
            SessionsEnding::Run(Ending::Usage)
        }
    }
}

/// Loads the file that the words name, serves 16 sessions of the input, and says with which status the run ends.
///
/// The words are those of [`redis_core`](program_top::top_call::redis_core) without `--generate`, which is wrong usage here. The input is pieces: the number of a
/// session in two bytes and a length in four, the lowest first, and so many bytes of that session's requests in RESP2. The
/// output is units, one a reply: the number in two bytes, the length in eight, and the reply's bytes. A session begins with its first
/// piece, in database 0. Requests are answered in the order of their last bytes. MULTI, EXEC, DISCARD and WATCH are those of the
/// Redis documentation, "Transactions". QUIT ends a session, and so does a broken rule of RESP2, behind whose line its bytes
/// are passed over. The clock, in milliseconds, is read once before all else, and once for each request; behind each unit that
/// answers a request a plan is asked of the first pacer that isn't spent, and done.
///
/// Serving ends with 0 where the input ended outside a piece and no session inside a request, 3 where one did, 4 where the input failed, 5
/// where the output failed, 9 where so many bytes were taken as `--max-input` says, 11 where a piece has a number above 15. The file ends
/// it with 6, 7 or 9 before that, wrong words with 1. 8 is want of memory. Each status but 0 has its line in the notes.
#[tactic(none)]
pub fn redis_sessions<H: Host, I: Source, O: Sink, N: Sink>(
    alloc: Global,
    words: &[String],
    host: &mut H,
    input: &mut I,
    output: &mut O,
    notes: &mut N,
    clock: &mut Box<dyn Clock>,
    pacers: Vec<Box<dyn Pacer>>,
) -> u8
    ensures { let before : Outside = record {
      host = H.seen host.old;
      input = I.seen input.old;
      output = O.seen output.old;
      notes = N.seen notes.old;
      clock = answers clock.old;
      pacers =
          map (λ b. (⟦<dyn Pacer as Pacer>⟧ b.vtable).pacing b.value) pacers.items;
    } in
        let after : Outside = record { host = H.seen host.new; input = I.seen input.new; output = O.seen output.new; notes = N.seen notes.new; clock = answers clock.new; pacers = [] } in
        TopAnswers (given_by (map string_bytes words.now)) before after result }
{
    match read_words(alloc, words) {
        Ok(given) => run_given(alloc, given, host, input, output, notes, clock, pacers).status(),
        Err(_) => {
            let ending = SessionsEnding::Run(Ending::Memory);
            note_sessions(notes, ending);
            ending.status()
        }
    }
}
