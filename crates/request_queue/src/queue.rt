//! A queue of requests.

ghost use Rattle.std.specs.Prelude.{◌≡◌, ◌++◌, [], ◌∷◌, length, map, IfOk, OnOk, OnErr};
ghost use Rattle.resp_frames.specs.Frames.{request_bytes};
ghost use Rattle.request_queue.specs.Queued.{RunsBehind, RunsQueued};

use crate::executing::execute_bytes;
use crate::spelled::spell_request;
use plain_world::{Memory, Part, Parts, Reply};
use resp_frames::Request;
use serving::Server;
use std::alloc::Global;
use std::marker::Model;

/// Requests that are kept. Contracts see the list of their bytes.
#[derive(Drop)]
pub struct Queue {
    requests: Vec<Vec<u8>>,
}

impl Model for Queue {
    ghost use Rattle.std.specs.Prelude.{List, ℕ, map};

    ghost Value = { List (List ℕ) };

    ghost view = { λ q. map (λ r. r.items) q.requests.items };
}

impl Queue {
    /// A queue without a request.
    pub fn new(alloc: Global) -> Queue
        ensures { result ≡ [] }
    {
        Queue {
            requests: Vec::new(alloc),
        }
    }

    /// How many requests it has.
    pub fn len(&self) -> usize
        ensures { result ≡ length self.now }
    {
        self.requests.len()
    }

    /// Keeps a request behind the others. `Memory` leaves the queue.
    pub fn push(&mut self, alloc: Global, request: &Request<'_>) -> Result<(), Memory>
        ensures ok { OnOk result (self.new ≡ self.old ++ request_bytes request.now ∷ []) }
        ensures err { OnErr result (self.new ≡ self.old) }
    {
        let bytes = spell_request(alloc, request)?;
        self.requests.push(bytes)?;
        Ok(())
    }

    /// Runs the requests one behind the other on an engine, at this moment in milliseconds, with nothing between them, and answers
    /// their replies as one array (Redis documentation, "Transactions", "Usage"). `Memory` where memory was refused; then some of the
    /// first may have been run.
    pub fn run<E: Server>(
        &self,
        alloc: Global,
        engine: &mut E,
        moment: u64,
    ) -> Result<Reply, Memory>
        ensures { IfOk result (λ reply. RunsQueued (E.executes moment) engine.old self.now reply engine.new) }
    {
        let mut parts = Parts::new(alloc);
        parts.push(Part::Array(self.requests.len() as u64))?;
        run_all(alloc, engine, &self.requests, moment, &mut parts)?;
        Ok(parts.into_reply())
    }
}

// Runs the requests of these bytes, and puts their replies behind the parts.
fn run_all<E: Server>(
    alloc: Global,
    engine: &mut E,
    requests: &[Vec<u8>],
    moment: u64,
    parts: &mut Parts,
) -> Result<(), Memory>
    ensures { OnOk result (RunsBehind (E.executes moment) engine.old (map (λ r. r.items) requests.now) parts.old parts.new engine.new) }
{
    for request in requests {
        let reply = execute_bytes(alloc, engine, request, moment)?;
        parts.append(reply)?;
    }
    Ok(())
}
