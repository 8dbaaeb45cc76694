//! What is kept of a session's input.

ghost use Rattle.std.specs.Prelude.{◌≡◌, IfOk};
ghost use Rattle.sessions.specs.Slots.{Opens, AreIdle, HasCut};

use plain_world::Memory;
use resp_frames::Feeder;
use std::alloc::Global;
use std::mem::replace;

/// What is kept of a session.
#[derive(Drop)]
pub enum Slot {
    /// Nothing: it has sent nothing.
    Idle,
    /// What its bytes are fed to.
    Open(Feeder),
    /// It has ended.
    Ended,
}

/// Takes a session's feeder out of its slot, or makes one where the session has sent nothing; none where it has ended. The slot
/// is left as that of a session that has ended.
pub fn open(alloc: Global, slot: &mut Slot) -> Option<Feeder>
    ensures left { slot.new ≡ Slot.Ended }
    ensures opened { Opens slot.old result }
{
    match replace(slot, Slot::Ended) {
        Slot::Idle => Some(Feeder::new(alloc)),
        Slot::Open(feeder) => Some(feeder),
        Slot::Ended => None,
    }
}

/// So many slots of sessions that have sent nothing.
pub fn idle_slots(alloc: Global, sessions: usize) -> Result<Vec<Slot>, Memory>
    ensures { IfOk result (λ slots. AreIdle sessions slots.items) }
{
    let mut slots = Vec::new(alloc);
    for _ in 0..sessions {
        slots.push(Slot::Idle)?;
    }
    Ok(slots)
}

/// Whether a session that has not ended has sent a part of a request.
pub fn any_cut(slots: &[Slot]) -> bool
    ensures { HasCut slots.now result }
{
    for slot in slots {
        if let Slot::Open(feeder) = slot {
            if feeder.kept() > 0 {
                return true;
            }
        }
    }
    false
}
