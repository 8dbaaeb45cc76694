//! Sessions are served, piece by piece.

ghost use Rattle.std.specs.Prelude.{◌≡◌, ◌^◌, ◌≤◌, ◌<◌, ◌+◌, [], length};
ghost use Rattle.outside.specs.Pacing.{following};
ghost use Rattle.serving.specs.Timed.{Timed};
ghost use Rattle.serving.specs.Output.{pending_bytes};
ghost use Rattle.session_hub.specs.Standing.{AtHead};
ghost use Rattle.sessions.specs.Slots.{AreIdle};
ghost use Rattle.sessions.specs.Chunks.{FedAtMost, TakenIs, ServesChunk, Finishes, AllPut, IsUnknownNow, EndsThere};
ghost use Rattle.sessions.specs.Served.{Served};

use crate::chunk::serve_chunk;
use crate::ending::SessionsEnded;
use crate::hearing::Heard;
use crate::slot::{Slot, any_cut, idle_slots};
use outside::{Clock, Conductor, Pacer, Sink, Source};
use serving::{Ended, Pending, flush};
use session_hub::{Hub, Stopped};
use session_server::Sessions;
use std::alloc::Global;

/// At most so many bytes are taken at once.
const TAKEN_AT_ONCE: usize = 65_536;

/// What became of a take.
#[derive(Clone, Copy)]
pub enum Taken {
    /// So many bytes were taken.
    Bytes(usize),
    /// The input is at its end.
    End,
    Fault,
}

// Takes the next bytes of the input, at most so many.
fn take_bytes<I: Source>(input: &mut I, room: &mut [u8], most: usize) -> Taken
    requires some { 0 < most }
    requires within { most ≤ length room.old }
    ensures { TakenIs (I.seen input.old) (I.seen input.new) most room.new result }
{
    match input.take(&mut room[..most]) {
        Err(_) => Taken::Fault,
        Ok(0) => Taken::End,
        Ok(count) => Taken::Bytes(count),
    }
}

// Puts what is pending, and then says this.
fn finish<O: Sink>(pending: &mut Pending, output: &mut O, heard: Heard) -> Heard
    ensures { Finishes (O.seen output.old) (O.seen output.new) (pending_bytes pending.old) (pending_bytes pending.new) heard result }
{
    match flush(pending, output) {
        Ok(()) => heard,
        Err(_) => Heard::Fault,
    }
}

// Passes over the bytes that were taken, answers what they bring, and puts all units. So many bytes were taken before.
fn serve_bytes<E: Sessions, O: Sink>(
    alloc: Global,
    engine: &mut E,
    clock: &mut Box<dyn Clock>,
    conductor: &mut Conductor,
    hub: &mut Hub,
    slots: &mut Vec<Slot>,
    bytes: &[u8],
    before: u64,
    pending: &mut Pending,
    output: &mut O,
) -> Heard
    requires pending { pending_bytes pending.old ≡ [] }
    requires slots { length slots.old.items ≡ hub.old.sessions }
    requires fed { FedAtMost before slots.old.items }
    requires few { before + length bytes.now ≤ 2 ^ 62 }
    ensures chunk { ServesChunk E.turns E.executes E.works bytes.now before hub.old hub.new slots.old.items slots.new.items
        (record { engine = engine.old; clock = answers clock.old; pacers = following (λ b. (⟦<dyn Pacer as Pacer>⟧ b.vtable).pacing b.value) conductor.old })
        (record { engine = engine.new; clock = answers clock.new; pacers = following (λ b. (⟦<dyn Pacer as Pacer>⟧ b.vtable).pacing b.value) conductor.new })
        (O.seen output.old) (O.seen output.new) [] [] result }
    ensures pending { AllPut (pending_bytes pending.new) result }
    ensures slots { length slots.new.items ≡ hub.new.sessions }
    ensures hub { hub.new.sessions ≡ hub.old.sessions }
{
    match serve_chunk(
        alloc, engine, clock, conductor, hub, slots, bytes, before, pending, output,
    ) {
        Heard::On => finish(pending, output, Heard::On),
        Heard::Memory => finish(pending, output, Heard::Memory),
        Heard::Fault => Heard::Fault,
    }
}

// Whether a number was taken that no session has.
fn is_unknown(hub: &Hub) -> bool
    ensures { IsUnknownNow hub.now.standing result }
{
    match hub.stopped() {
        Stopped::Unknown => true,
        _ => false,
    }
}

// What the end of the input comes to.
fn ended_at_end(hub: &Hub, slots: &[Slot]) -> Ended
    ensures { EndsThere hub.now.standing slots.now result }
{
    match hub.stopped() {
        Stopped::Inside => Ended::Cut,
        _ => if any_cut(slots) {
            Ended::Cut
        } else {
            Ended::Whole
        },
    }
}

// Serves the sessions of the input, of which at most so many bytes are taken, with a hub, slots and a sink in memory that are
// new.
#[tactic(none)]
fn serve<E: Sessions, I: Source, O: Sink>(
    alloc: Global,
    engine: &mut E,
    clock: &mut Box<dyn Clock>,
    conductor: &mut Conductor,
    hub: &mut Hub,
    slots: &mut Vec<Slot>,
    pending: &mut Pending,
    input: &mut I,
    output: &mut O,
    room: &mut [u8],
    limit: u64,
) -> SessionsEnded
    requires hub { hub.old.standing ≡ AtHead [] }
    requires slots { AreIdle hub.old.sessions slots.old.items }
    requires pending { pending_bytes pending.old ≡ [] }
    requires room { length room.old ≡ 65536 }
    requires limit { limit ≤ 2 ^ 62 }
    ensures { Served E.turns E.executes E.works hub.old.sessions limit (I.seen input.old) (I.seen input.new) (O.seen output.old) (O.seen output.new)
        (record { engine = engine.old; clock = answers clock.old; pacers = following (λ b. (⟦<dyn Pacer as Pacer>⟧ b.vtable).pacing b.value) conductor.old })
        (record { engine = engine.new; clock = answers clock.new; pacers = following (λ b. (⟦<dyn Pacer as Pacer>⟧ b.vtable).pacing b.value) conductor.new }) result }
{
    let mut taken: u64 = 0;
    'pieces: loop {
        if is_unknown(hub) {
            return SessionsEnded::Unknown;
        }
        if taken == limit {
            return SessionsEnded::Plain(Ended::Limit);
        }
        let most = (limit - taken).min(TAKEN_AT_ONCE as u64) as usize;
        let count = match take_bytes(input, room, most) {
            Taken::Bytes(count) => count,
            Taken::End => return SessionsEnded::Plain(ended_at_end(hub, slots)),
            Taken::Fault => return SessionsEnded::Plain(Ended::ReadFault),
        };
        match serve_bytes(
            alloc,
            engine,
            clock,
            conductor,
            hub,
            slots,
            &room[..count],
            taken,
            pending,
            output,
        ) {
            Heard::On => taken += count as u64,
            Heard::Fault => return SessionsEnded::Plain(Ended::WriteFault),
            Heard::Memory => return SessionsEnded::Plain(Ended::Memory),
        }
    }
}

/// Serves the sessions of an input of pieces with this engine: so many sessions, which have the numbers from 0 on. Each request
/// is answered at the moment that the clock tells, in the order of the requests' last bytes, by a unit of the output. Behind each
/// such unit the engine does what the conductor plans, at the same moment. QUIT ends its session, and so does a broken rule, whose
/// line is a unit too. At most so many bytes are taken.
pub fn serve_sessions<E: Sessions, I: Source, O: Sink>(
    alloc: Global,
    engine: &mut E,
    clock: &mut Box<dyn Clock>,
    conductor: &mut Conductor,
    input: &mut I,
    output: &mut O,
    limit: u64,
    sessions: usize,
) -> SessionsEnded
    requires { limit ≤ 2 ^ 62 }
    ensures { Served E.turns E.executes E.works sessions limit (I.seen input.old) (I.seen input.new) (O.seen output.old) (O.seen output.new)
        (record { engine = engine.old; clock = answers clock.old; pacers = following (λ b. (⟦<dyn Pacer as Pacer>⟧ b.vtable).pacing b.value) conductor.old })
        (record { engine = engine.new; clock = answers clock.new; pacers = following (λ b. (⟦<dyn Pacer as Pacer>⟧ b.vtable).pacing b.value) conductor.new }) result }
{
    let mut hub = Hub::new(sessions);
    let Ok(mut slots) = idle_slots(alloc, sessions) else {
        return SessionsEnded::Plain(Ended::Memory);
    };
    let Ok(mut pending) = Pending::new(alloc) else {
        return SessionsEnded::Plain(Ended::Memory);
    };
    let Ok(mut room) = (vec![in alloc; 0u8; TAKEN_AT_ONCE]) else {
        return SessionsEnded::Plain(Ended::Memory);
    };
    serve(
        alloc,
        engine,
        clock,
        conductor,
        &mut hub,
        &mut slots,
        &mut pending,
        input,
        output,
        &mut room,
        limit,
    )
}
