//! Bytes of one session are heard.

ghost use Rattle.std.specs.Prelude.{◌≤◌, ◌+◌, ◌^◌, length};
ghost use Rattle.outside.specs.Pacing.{following};
ghost use Rattle.serving.specs.Timed.{Timed};
ghost use Rattle.serving.specs.Output.{pending_bytes};
ghost use Rattle.sessions.specs.Slots.{fed_of};
ghost use Rattle.sessions.specs.Hearing.{Hears};

use crate::answering::{Answered, answer_all};
use crate::slot::{Slot, open};
use crate::unit::write_fault;
use outside::{Clock, Conductor, Pacer, Sink};
use serving::Pending;
use session_server::Sessions;
use std::alloc::Global;

/// What became of bytes.
#[derive(Clone, Copy)]
pub enum Heard {
    /// What they brought is answered.
    On,
    /// A unit could not be written whole.
    Fault,
    /// Want of memory.
    Memory,
}

/// Feeds bytes of a session, and answers what they bring: its requests up to one that ends it, or with the line of a broken
/// rule behind them, which ends it too. Bytes of a session that has ended are passed over.
pub fn hear<E: Sessions, O: Sink>(
    alloc: Global,
    engine: &mut E,
    clock: &mut Box<dyn Clock>,
    conductor: &mut Conductor,
    session: u16,
    slot: &mut Slot,
    bytes: &[u8],
    pending: &mut Pending,
    output: &mut O,
) -> Heard
    requires { fed_of slot.old + length bytes.now ≤ 2 ^ 62 }
    ensures { Hears E.turns E.executes E.works session bytes.now slot.old slot.new
        (record { engine = engine.old; clock = answers clock.old; pacers = following (λ b. (⟦<dyn Pacer as Pacer>⟧ b.vtable).pacing b.value) conductor.old })
        (record { engine = engine.new; clock = answers clock.new; pacers = following (λ b. (⟦<dyn Pacer as Pacer>⟧ b.vtable).pacing b.value) conductor.new })
        (O.seen output.old) (O.seen output.new) (pending_bytes pending.old) (pending_bytes pending.new) result }
{
    let mut feeder = match open(alloc, slot) {
        None => return Heard::On,
        Some(feeder) => feeder,
    };
    match feeder.feed(bytes) {
        Ok(()) => {}
        Err(_) => return Heard::Memory,
    }
    match answer_all(
        engine,
        clock,
        conductor,
        session,
        &mut feeder,
        pending,
        output,
    ) {
        Answered::All => {
            *slot = Slot::Open(feeder);
            Heard::On
        }
        Answered::Broken(rule, at) => match write_fault(session, rule, at, pending, output) {
            Ok(()) => Heard::On,
            Err(_) => Heard::Fault,
        },
        Answered::Quit => Heard::On,
        Answered::Fault => Heard::Fault,
        Answered::Memory => Heard::Memory,
    }
}
