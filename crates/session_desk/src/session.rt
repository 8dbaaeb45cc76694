//! What a desk keeps of one session.

ghost use Rattle.std.specs.Prelude.{◌≡◌, ◌↔◌, Option, IsTrue, []};
ghost use Rattle.plain_world.specs.Worlds.{Entry};
ghost use Rattle.session_desk.specs.Kept.{kept_of, new_kept, closed};
ghost use Rattle.session_desk.specs.Watching.{IsSilent, IsWithin};

use key_marks::Marks;
use request_queue::Queue;
use std::alloc::Global;

/// A watched key.
#[derive(Drop)]
pub struct Watch<T> {
    /// The number of its database, below 16.
    pub db: usize,
    pub key: Vec<u8>,
    /// What stood there at the WATCH.
    pub first: T,
    /// Whether something else was found there since.
    pub has_changed: bool,
}

/// One session.
#[derive(Drop)]
pub struct Session<T> {
    /// The number of its database, below 16.
    pub db: usize,
    /// Inside MULTI the queued requests.
    pub queue: Option<Queue>,
    /// Whether these are given up by EXEC, as words were wrong.
    pub is_spoilt: bool,
    pub watched: Vec<Watch<T>>,
    /// The places in `watched` of each key, whatever its database.
    pub marks: Marks,
}

impl<T: Drop> Session<T> {
    /// A session that said nothing yet.
    pub fn new(alloc: Global) -> Session<T>
        ensures kept { (told : T → Option Entry) → kept_of told result ≡ new_kept }
        ensures db { result.db ≡ 0 }
        ensures watched { result.watched.items ≡ [] }
        ensures within { IsWithin result }
    {
        Session {
            db: 0,
            queue: None,
            is_spoilt: false,
            watched: Vec::new(alloc),
            marks: Marks::new(alloc),
        }
    }

    /// Whether it watches nothing.
    pub fn is_silent(&self) -> bool
        ensures { IsTrue result ↔ IsSilent self.now }
    {
        self.watched.is_empty()
    }

    /// Ends what MULTI began: the queue is gone, and nothing is watched.
    pub fn close(&mut self)
        ensures kept { (told : T → Option Entry) → kept_of told self.new ≡ closed (kept_of told self.old) }
        ensures db { self.new.db ≡ self.old.db }
        ensures watched { self.new.watched.items ≡ [] }
        ensures within { IsWithin self.old → IsWithin self.new }
    {
        self.queue = None;
        self.is_spoilt = false;
        self.watched.clear();
        self.marks.clear();
    }
}
