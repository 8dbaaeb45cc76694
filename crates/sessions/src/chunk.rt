//! The bytes that were taken at once are served.

ghost use Rattle.std.specs.Prelude.{◌≡◌, ◌≤◌, ◌+◌, ◌^◌, length};
ghost use Rattle.outside.specs.Pacing.{following};
ghost use Rattle.serving.specs.Timed.{Timed};
ghost use Rattle.serving.specs.Output.{pending_bytes};
ghost use Rattle.sessions.specs.Chunks.{FedAtMost, ServesChunk};

use crate::hearing::{Heard, hear};
use crate::slot::Slot;
use outside::{Clock, Conductor, Pacer, Sink};
use serving::Pending;
use session_hub::{Hub, Step};
use session_server::Sessions;
use std::alloc::Global;

/// Passes over bytes of the input, and answers what they bring, session by session. So many bytes were passed over before.
pub fn serve_chunk<E: Sessions, O: Sink>(
    alloc: Global,
    engine: &mut E,
    clock: &mut Box<dyn Clock>,
    conductor: &mut Conductor,
    hub: &mut Hub,
    slots: &mut Vec<Slot>,
    bytes: &[u8],
    before: u64,
    pending: &mut Pending,
    output: &mut O,
) -> Heard
    requires slots { length slots.old.items ≡ hub.old.sessions }
    requires fed { FedAtMost before slots.old.items }
    requires few { before + length bytes.now ≤ 2 ^ 62 }
    ensures chunk { ServesChunk E.turns E.executes E.works bytes.now before hub.old hub.new slots.old.items slots.new.items
        (record { engine = engine.old; clock = answers clock.old; pacers = following (λ b. (⟦<dyn Pacer as Pacer>⟧ b.vtable).pacing b.value) conductor.old })
        (record { engine = engine.new; clock = answers clock.new; pacers = following (λ b. (⟦<dyn Pacer as Pacer>⟧ b.vtable).pacing b.value) conductor.new })
        (O.seen output.old) (O.seen output.new) (pending_bytes pending.old) (pending_bytes pending.new) result }
    ensures slots { length slots.new.items ≡ hub.new.sessions }
    ensures hub { hub.new.sessions ≡ hub.old.sessions }
{
    let mut at = 0;
    'bytes: while at < bytes.len() {
        match hub.step(&bytes[at..]) {
            Step::Head => at += 1,
            Step::Unknown => at = bytes.len(),
            Step::Bytes { session, count } => {
                match hear(
                    alloc,
                    engine,
                    clock,
                    conductor,
                    session,
                    &mut slots[session as usize],
                    &bytes[at..at + count],
                    pending,
                    output,
                ) {
                    Heard::On => at += count,
                    Heard::Fault => return Heard::Fault,
                    Heard::Memory => return Heard::Memory,
                }
            }
        }
    }
    Heard::On
}
