//! Requests of an input are served, piece by piece.

ghost use Rattle.std.specs.Prelude.{◌≡◌, ◌^◌, ◌≤◌, ◌<◌, ◌+◌, [], length};
ghost use Rattle.outside.specs.Pacing.{following};
ghost use Rattle.serving.specs.Timed.{Timed, TimedStep, TimedCut};
ghost use Rattle.serving.specs.Path.{path, CutPath};
ghost use Rattle.serving.specs.Output.{pending_bytes};
ghost use Rattle.serving.specs.Served.{Served};
ghost use Rattle.serving.specs.Taking.{Takes, IsFresh};

use crate::answering::{Answered, answer_all};
use crate::ending::Ended;
use crate::pending::Pending;
use crate::server::Server;
use outside::{Clock, Conductor, Pacer, Sink, Source};
use resp_frames::{Feeder, put_fault};
use std::alloc::Global;

/// At most so many bytes are taken at once.
const TAKEN_AT_ONCE: usize = 65_536;

/// What became of a take.
#[derive(Clone, Copy)]
pub enum Taken {
    /// So many bytes were taken and fed.
    Piece(usize),
    /// The input is at its end.
    End,
    Fault,
    /// Want of memory; the bytes were taken and not fed.
    Memory,
}

// Takes the next piece of the input, and feeds it.
fn take_piece<I: Source>(input: &mut I, room: &mut [u8], feeder: &mut Feeder) -> Taken
    requires some { 0 < length room.old }
    requires few { feeder.old.gone + length feeder.old.kept + length room.old ≤ 2 ^ 62 }
    ensures { Takes (I.seen input.old) (I.seen input.new) (length room.old) feeder.old feeder.new result }
{
    match input.take(room) {
        Err(_) => Taken::Fault,
        Ok(0) => Taken::End,
        Ok(count) => match feeder.feed(&room[..count]) {
            Ok(()) => Taken::Piece(count),
            Err(_) => Taken::Memory,
        },
    }
}

// Serves the requests of the input, of which at most so many bytes are taken, with a feeder and a sink in memory that are new.
#[tactic(none)]
fn serve<E: Server, I: Source, O: Sink>(
    engine: &mut E,
    clock: &mut Box<dyn Clock>,
    conductor: &mut Conductor,
    feeder: &mut Feeder,
    pending: &mut Pending,
    input: &mut I,
    output: &mut O,
    room: &mut [u8],
    limit: u64,
) -> Ended
    requires feeder { IsFresh feeder.old }
    requires pending { pending_bytes pending.old ≡ [] }
    requires room { length room.old ≡ 65536 }
    requires limit { limit ≤ 2 ^ 62 }
    ensures { Served
        (path (TimedStep E.executes E.works E.quits)
        (record { engine = engine.old; clock = answers clock.old; pacers = following (λ b. (⟦<dyn Pacer as Pacer>⟧ b.vtable).pacing b.value) conductor.old }))
        (CutPath (TimedStep E.executes E.works E.quits) (TimedCut E.executes E.works E.quits)
        (record { engine = engine.old; clock = answers clock.old; pacers = following (λ b. (⟦<dyn Pacer as Pacer>⟧ b.vtable).pacing b.value) conductor.old })) E.quits limit
        (I.seen input.old) (I.seen input.new) (O.seen output.old) (O.seen output.new)
        (record { engine = engine.new; clock = answers clock.new; pacers = following (λ b. (⟦<dyn Pacer as Pacer>⟧ b.vtable).pacing b.value) conductor.new }) result }
{
    let mut taken: u64 = 0;
    'pieces: loop {
        match answer_all(engine, clock, conductor, feeder, pending, output) {
            Answered::All => {}
            Answered::Protocol(rule, at) => return match put_fault(output, rule, at) {
                Ok(()) => Ended::Protocol { rule, at },
                Err(_) => Ended::WriteFault,
            },
            Answered::Quit => return Ended::Quit,
            Answered::Fault => return Ended::WriteFault,
            Answered::Memory => return Ended::Memory,
        }
        if taken == limit {
            return Ended::Limit;
        }
        let most = (limit - taken).min(TAKEN_AT_ONCE as u64) as usize;
        match take_piece(input, &mut room[..most], feeder) {
            Taken::Piece(count) => taken += count as u64,
            Taken::End => return if feeder.kept() == 0 {
                Ended::Whole
            } else {
                Ended::Cut
            },
            Taken::Fault => return Ended::ReadFault,
            Taken::Memory => return Ended::Memory,
        }
    }
}

/// Serves the requests of the input with this engine, each at the moment that the clock tells. After each but the last one,
/// where that ends the run, the engine does what the conductor plans, at the same moment. At most so many bytes are taken.
/// Where memory is wanted, what is written are whole replies to the first of the requests.
pub fn serve_input<E: Server, I: Source, O: Sink>(
    alloc: Global,
    engine: &mut E,
    clock: &mut Box<dyn Clock>,
    conductor: &mut Conductor,
    input: &mut I,
    output: &mut O,
    limit: u64,
) -> Ended
    requires { limit ≤ 2 ^ 62 }
    ensures { Served
        (path (TimedStep E.executes E.works E.quits)
        (record { engine = engine.old; clock = answers clock.old; pacers = following (λ b. (⟦<dyn Pacer as Pacer>⟧ b.vtable).pacing b.value) conductor.old }))
        (CutPath (TimedStep E.executes E.works E.quits) (TimedCut E.executes E.works E.quits)
        (record { engine = engine.old; clock = answers clock.old; pacers = following (λ b. (⟦<dyn Pacer as Pacer>⟧ b.vtable).pacing b.value) conductor.old })) E.quits limit
        (I.seen input.old) (I.seen input.new) (O.seen output.old) (O.seen output.new)
        (record { engine = engine.new; clock = answers clock.new; pacers = following (λ b. (⟦<dyn Pacer as Pacer>⟧ b.vtable).pacing b.value) conductor.new }) result }
{
    let mut feeder = Feeder::new(alloc);
    let Ok(mut pending) = Pending::new(alloc) else {
        return Ended::Memory;
    };
    let Ok(mut room) = (vec![in alloc; 0u8; TAKEN_AT_ONCE]) else {
        return Ended::Memory;
    };
    serve(
        engine,
        clock,
        conductor,
        &mut feeder,
        &mut pending,
        input,
        output,
        &mut room,
        limit,
    )
}
