//! The keys that queued requests name.

ghost use Rattle.std.specs.Prelude.{◌≡◌, ◌++◌, ℕ, List, map, false, true, IfOk, OnOk};
ghost use Rattle.written_keys.specs.Written.{key_of};
ghost use Rattle.session_desk.specs.Writing.{texts_of, Gathers, IsAmong, QueueWrites, SomeWrite};

use crate::writing::{Written, written_by};
use outside::Plan;
use plain_model::Word;
use plain_world::{Line, Memory, Part, Parts, Reply};
use request_queue::Queue;
use resp_frames::Request;
use serving::{Done, Server};
use std::alloc::Global;
use written_keys::Emptied;

/// The keys that some requests may write, in whatever database. It gathers them request by request, and runs none.
#[derive(Drop)]
pub struct Names {
    alloc: Global,
    keys: Vec<Vec<u8>>,
    // whether one of the requests empties a database
    empties: bool,
    is_spent: bool,
}

// Adds the keys of these places behind the others.
fn push_keys(
    alloc: Global,
    keys: &mut Vec<Vec<u8>>,
    places: &[(usize, Word<'_>)],
) -> Result<(), Memory>
    ensures { OnOk result (texts_of keys.new.items ≡ texts_of keys.old.items ++ map key_of places.now) }
{
    for place in places {
        keys.push(Vec::from_slice(alloc, place.1.as_slice())?)?;
    }
    Ok(())
}

// Whether some database is emptied, or one was before.
fn empties(before: bool, emptied: Emptied) -> bool
    ensures before { before ≡ true → result ≡ true }
    ensures none { result ≡ false → emptied ≡ Emptied.Nothing }
{
    match emptied {
        Emptied::Nothing => before,
        Emptied::Selected | Emptied::All => true,
    }
}

// A reply, which nobody reads.
fn some_reply(alloc: Global) -> Result<Reply, Memory> {
    let mut parts = Parts::new(alloc);
    parts.push(Part::Simple(Line::ok()))?;
    Ok(parts.into_reply())
}

impl Names {
    // None yet.
    fn new(alloc: Global) -> Names {
        Names {
            alloc,
            keys: Vec::new(alloc),
            empties: false,
            is_spent: false,
        }
    }

    // Gathers those of one request.
    fn gather(&mut self, request: &Request<'_>) -> Result<(), Memory>
        ensures gathers { OnOk result (Gathers self.old request.now self.new) }
        ensures alive { OnOk result (self.new.is_spent ≡ false) }
    {
        let written = written_by(self.alloc, request, 0)?;
        push_keys(self.alloc, &mut self.keys, &written.places)?;
        self.empties = empties(self.empties, written.emptied);
        self.is_spent = false;
        Ok(())
    }
}

impl Server for Names {
    ghost executes = { λ moment old words reply new. Gathers old words new };

    ghost works = { λ moment plan old new. new ≡ old };

    ghost quits = { λ words. false };

    ghost spent = { λ names. names.is_spent };

    fn execute(&mut self, request: &Request<'_>, _moment: u64) -> Result<Done, Memory> {
        match self.gather(request) {
            Ok(()) => match some_reply(self.alloc) {
                Ok(reply) => Ok(Done { reply, quit: false }),
                Err(error) => {
                    self.is_spent = true;
                    Err(error)
                }
            },
            Err(error) => {
                self.is_spent = true;
                Err(error)
            }
        }
    }

    fn background(&mut self, _plan: Plan, _moment: u64) {}
}

// What queued requests may have written, in whatever database each was run.
fn written_in<'a>(alloc: Global, queue: &Queue) -> Result<Written<'a>, Memory>
    ensures { IfOk result (λ written. (db : ℕ) (key : List ℕ) → QueueWrites queue.now db key → IsAmong written db key) }
{
    let mut names = Names::new(alloc);
    let _reply = queue.run(alloc, &mut names, 0)?;
    Ok(Written::of_names(alloc, names.keys, names.empties))
}

/// The same where there may be a queue; where none is told, any place. `Memory` where memory was refused.
pub fn written_behind<'a>(alloc: Global, queue: &Option<Queue>) -> Result<Written<'a>, Memory>
    ensures { IfOk result (λ written. (db : ℕ) (key : List ℕ) → SomeWrite queue.now db key → IsAmong written db key) }
{
    match queue {
        None => Ok(Written::anywhere(alloc)),
        Some(queue) => written_in(alloc, queue),
    }
}
