//! Requests of one session are answered.

ghost use Rattle.std.specs.Prelude.{◌≡◌, false};
ghost use Rattle.outside.specs.Pacing.{following};
ghost use Rattle.serving.specs.Timed.{Timed, ReadsMoment, Works};
ghost use Rattle.serving.specs.Output.{pending_bytes};
ghost use Rattle.sessions.specs.Answering.{AnswersOne, AnswersAll};

use crate::unit::write_unit;
use outside::{Clock, Conductor, Pacer, Sink};
use resp_frames::{Feeder, FrameFault, Request, Rule};
use serving::Pending;
use session_server::Sessions;

// The greatest moment, in milliseconds.
const LATEST: u64 = 9_223_372_036_854_775_807;

/// What became of one request.
#[derive(Clone, Copy)]
pub enum Answer {
    /// Its unit is written, or pending.
    Written,
    /// The same, and its session ends with it.
    Quit,
    /// Its unit could not be written whole.
    Fault,
    /// Want of memory.
    Memory,
}

/// What became of the requests that were whole.
#[derive(Clone, Copy)]
pub enum Answered {
    /// All were answered, and no rule is broken.
    All,
    /// All were answered, and then this rule is broken, at this byte of the session.
    Broken(Rule, u64),
    /// One was answered that ends the session.
    Quit,
    /// A unit could not be written whole.
    Fault,
    /// Want of memory.
    Memory,
}

// The moment that the clock tells, in milliseconds: at most the greatest one. It stands here too, since of a function of another
// crate that takes a clock the borrow checker can't tell that it lends none.
fn moment_of(clock: &mut Box<dyn Clock>) -> u64
    ensures { ReadsMoment (answers clock.old) (answers clock.new) result }
{
    clock.now().min(LATEST)
}

// Does the work that is planned next, at this moment.
fn rest<E: Sessions>(engine: &mut E, conductor: &mut Conductor, moment: u64)
    requires alive { E.spent engine.old ≡ false }
    ensures { Works E.works moment engine.old engine.new (following (λ b. (⟦<dyn Pacer as Pacer>⟧ b.vtable).pacing b.value) conductor.old)
        (following (λ b. (⟦<dyn Pacer as Pacer>⟧ b.vtable).pacing b.value) conductor.new) }
{
    engine.background(conductor.next(), moment);
}

// Answers one request of a session, at the moment that the clock tells, and then does what is planned.
fn answer_one<E: Sessions, O: Sink>(
    engine: &mut E,
    clock: &mut Box<dyn Clock>,
    conductor: &mut Conductor,
    session: u16,
    request: &Request<'_>,
    pending: &mut Pending,
    output: &mut O,
) -> Answer
    ensures { AnswersOne E.turns E.executes E.works session
        (record { engine = engine.old; clock = answers clock.old; pacers = following (λ b. (⟦<dyn Pacer as Pacer>⟧ b.vtable).pacing b.value) conductor.old })
        (record { engine = engine.new; clock = answers clock.new; pacers = following (λ b. (⟦<dyn Pacer as Pacer>⟧ b.vtable).pacing b.value) conductor.new }) request.now
        (O.seen output.old) (O.seen output.new) (pending_bytes pending.old) (pending_bytes pending.new) result }
{
    let moment = moment_of(clock);
    engine.turn_to(session);
    let done = match engine.execute(request, moment) {
        Err(_) => return Answer::Memory,
        Ok(done) => done,
    };
    match write_unit(session, &done.reply, pending, output) {
        Err(_) => Answer::Fault,
        Ok(()) => {
            rest(engine, conductor, moment);
            if done.quit {
                Answer::Quit
            } else {
                Answer::Written
            }
        }
    }
}

/// Answers each request of a session that is whole, up to one that ends it. The last units may be pending.
pub fn answer_all<E: Sessions, O: Sink>(
    engine: &mut E,
    clock: &mut Box<dyn Clock>,
    conductor: &mut Conductor,
    session: u16,
    feeder: &mut Feeder,
    pending: &mut Pending,
    output: &mut O,
) -> Answered
    ensures { AnswersAll E.turns E.executes E.works session feeder.old feeder.new
        (record { engine = engine.old; clock = answers clock.old; pacers = following (λ b. (⟦<dyn Pacer as Pacer>⟧ b.vtable).pacing b.value) conductor.old })
        (record { engine = engine.new; clock = answers clock.new; pacers = following (λ b. (⟦<dyn Pacer as Pacer>⟧ b.vtable).pacing b.value) conductor.new })
        (O.seen output.old) (O.seen output.new) (pending_bytes pending.old) (pending_bytes pending.new) result }
{
    'requests: loop {
        match feeder.next_request() {
            Err(FrameFault::Protocol { rule, at }) => return Answered::Broken(rule, at),
            Err(FrameFault::Memory) => return Answered::Memory,
            Ok(false) => return Answered::All,
            Ok(true) => {}
        }
        match answer_one(
            engine,
            clock,
            conductor,
            session,
            &feeder.current(),
            pending,
            output,
        ) {
            Answer::Written => {}
            Answer::Quit => return Answered::Quit,
            Answer::Fault => return Answered::Fault,
            Answer::Memory => return Answered::Memory,
        }
    }
}
