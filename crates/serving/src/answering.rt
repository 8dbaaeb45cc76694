//! Requests are answered.

ghost use Rattle.std.specs.Prelude.{◌≡◌, false, []};
ghost use Rattle.outside.specs.Pacing.{following};
ghost use Rattle.serving.specs.Timed.{Timed, ReadsMoment, TimedStep, TimedCut, Works};
ghost use Rattle.serving.specs.Output.{pending_bytes};
ghost use Rattle.serving.specs.Answering.{AnswersOne, Finishes, AnswersAll, AllPut};

use crate::pending::{Pending, flush};
use crate::server::Server;
use crate::writing::write_reply;
use outside::{Clock, Conductor, Pacer, Sink};
use resp_frames::{Feeder, FrameFault, Request, Rule};

// The greatest moment, in milliseconds.
const LATEST: u64 = 9_223_372_036_854_775_807;

/// What became of one request.
#[derive(Clone, Copy)]
pub enum Answer {
    /// Its reply is written, or pending.
    Written,
    /// The same, and the run ends with it.
    Quit,
    /// Its reply could not be written whole.
    Fault,
    /// Want of memory; nothing more is written.
    Memory,
}

/// What became of the requests that were whole.
#[derive(Clone, Copy)]
pub enum Answered {
    /// All were answered, and no rule is broken.
    All,
    /// All were answered, and then this rule is broken, at this byte of the input.
    Protocol(Rule, u64),
    /// One was answered that ends the run.
    Quit,
    /// A reply could not be written whole.
    Fault,
    /// Want of memory.
    Memory,
}

/// The moment that the clock tells, in milliseconds: at most the greatest one.
pub fn moment_of(clock: &mut Box<dyn Clock>) -> u64
    ensures { ReadsMoment (answers clock.old) (answers clock.new) result }
{
    clock.now().min(LATEST)
}

// Does the work that is planned next, at this moment.
fn rest<E: Server>(engine: &mut E, conductor: &mut Conductor, moment: u64)
    requires alive { E.spent engine.old ≡ false }
    ensures { Works E.works moment engine.old engine.new (following (λ b. (⟦<dyn Pacer as Pacer>⟧ b.vtable).pacing b.value) conductor.old)
        (following (λ b. (⟦<dyn Pacer as Pacer>⟧ b.vtable).pacing b.value) conductor.new) }
{
    engine.background(conductor.next(), moment);
}

// Answers one request, at the moment that the clock tells, and then does what is planned.
fn answer_one<E: Server, O: Sink>(
    engine: &mut E,
    clock: &mut Box<dyn Clock>,
    conductor: &mut Conductor,
    request: &Request<'_>,
    pending: &mut Pending,
    output: &mut O,
) -> Answer
    ensures { AnswersOne (TimedStep E.executes E.works E.quits) (TimedCut E.executes E.works E.quits) E.quits
        (record { engine = engine.old; clock = answers clock.old; pacers = following (λ b. (⟦<dyn Pacer as Pacer>⟧ b.vtable).pacing b.value) conductor.old })
        (record { engine = engine.new; clock = answers clock.new; pacers = following (λ b. (⟦<dyn Pacer as Pacer>⟧ b.vtable).pacing b.value) conductor.new }) request.now
        (O.seen output.old) (O.seen output.new) (pending_bytes pending.old) (pending_bytes pending.new) result }
{
    let moment = moment_of(clock);
    let done = match engine.execute(request, moment) {
        Err(_) => return Answer::Memory,
        Ok(done) => done,
    };
    match write_reply(&done.reply, pending, output) {
        Err(_) => Answer::Fault,
        Ok(()) => {
            if done.quit {
                Answer::Quit
            } else {
                rest(engine, conductor, moment);
                Answer::Written
            }
        }
    }
}

// Puts what is pending, and then says this.
fn finish<O: Sink>(pending: &mut Pending, output: &mut O, answered: Answered) -> Answered
    ensures { Finishes (O.seen output.old) (O.seen output.new) (pending_bytes pending.old) (pending_bytes pending.new) answered result }
{
    match flush(pending, output) {
        Ok(()) => answered,
        Err(_) => Answered::Fault,
    }
}

/// Answers each request that is whole, up to one that ends the run, and puts the replies. Where memory is wanted the replies
/// that are pending are not put, so that no put fails then.
pub fn answer_all<E: Server, O: Sink>(
    engine: &mut E,
    clock: &mut Box<dyn Clock>,
    conductor: &mut Conductor,
    feeder: &mut Feeder,
    pending: &mut Pending,
    output: &mut O,
) -> Answered
    requires { pending_bytes pending.old ≡ [] }
    ensures answers { AnswersAll (TimedStep E.executes E.works E.quits) (TimedCut E.executes E.works E.quits) E.quits feeder.old feeder.new
        (record { engine = engine.old; clock = answers clock.old; pacers = following (λ b. (⟦<dyn Pacer as Pacer>⟧ b.vtable).pacing b.value) conductor.old })
        (record { engine = engine.new; clock = answers clock.new; pacers = following (λ b. (⟦<dyn Pacer as Pacer>⟧ b.vtable).pacing b.value) conductor.new })
        (O.seen output.old) (O.seen output.new) result }
    ensures none { AllPut (pending_bytes pending.new) result }
{
    'requests: loop {
        match feeder.next_request() {
            Err(FrameFault::Protocol { rule, at }) => return finish(
                pending,
                output,
                Answered::Protocol(rule, at),
            ),
            Err(FrameFault::Memory) => return Answered::Memory,
            Ok(false) => return finish(pending, output, Answered::All),
            Ok(true) => {}
        }
        match answer_one(engine, clock, conductor, &feeder.current(), pending, output) {
            Answer::Written => {}
            Answer::Quit => return finish(pending, output, Answered::Quit),
            Answer::Fault => return Answered::Fault,
            Answer::Memory => return Answered::Memory,
        }
    }
}
