//! A host and a shelf over memory, which tell their files.

ghost use Rattle.std.specs.Prelude.{◌≡◌, ◌≤◌, ◌<◌, ◌-◌, ◌&&◌, min, Option, Some, None, IfSome, IfNone, IfOk, [], length, take, drop, vec_len, true, false, is_some, map, bytes_eq, string_bytes};
ghost use Rattle.std.specs.List.{position};
ghost use Rattle.outside.specs.Calls.{IsCall, has_place};
ghost use Rattle.outside.specs.Files.{Begins, TakesOf, Makes, PutsOn, Keeps, file_of, begun_bytes, one_file, made_of, put_bytes};
ghost use Rattle.outside.specs.Streams.{is_empty, sure_room};

use crate::memory::streams::{copy_front, write_over};
use crate::{Host, HostFault, Shelf};

/// A host of given files.
#[derive(Drop)]
pub struct MemHost {
    names: Vec<String>,
    files: Vec<Vec<u8>>,
    begun: Option<usize>,
    at: usize,
    failing: Vec<u64>,
    calls: u64,
    faults: u64,
    ghost in_range: { at ≤ length (begun_bytes files.items begun) },
}

impl MemHost {
    /// The host of these files, each under the name at its place, with none begun.
    ///
    /// The first of equal names counts, and a name without a file is as if it weren't there.
    /// The calls of both kinds whose numbers, from 0, stand in `failing` fail and take nothing.
    pub fn new(names: Vec<String>, files: Vec<Vec<u8>>, failing: Vec<u64>) -> MemHost
        ensures seen { ⟦<MemHost as Host>⟧.seen result ≡ record {
          files = Some (file_of (map string_bytes names.items) (map (λ f. f.items) files.items));
          begun = false;
          reading =
              record { told = Some []; faults = 0; sure = is_empty failing.items };
        } }
        ensures failing { result.failing ≡ failing }
        ensures calls { result.calls ≡ 0 }
    {
        MemHost {
            names,
            files,
            begun: None,
            at: 0,
            failing,
            calls: 0,
            faults: 0,
        }
    }
}

impl Host for MemHost {
    ghost seen = { λ s. record {
      files = Some (file_of (map string_bytes s.names.items) (map (λ f. f.items) s.files.items));
      begun = is_some s.begun;
      reading =
          record { told = Some (drop s.at (begun_bytes s.files.items s.begun)); faults = s.faults; sure = is_empty s.failing.items };
    } };

    fn begin(&mut self, name: &str) -> Result<(), HostFault>
        ensures begins { Begins (⟦<MemHost as Host>⟧.seen self.old) (⟦<MemHost as Host>⟧.seen self.new) name.now result }
        ensures called { IsCall (record { failing = self.old.failing.items; calls = self.old.calls }) (record { failing = self.new.failing.items; calls = self.new.calls })
            (is_some (file_of (map string_bytes self.old.names.items) (map (λ f. f.items) self.old.files.items) name.now)) result }
    {
        let call = self.calls;
        self.calls = self.calls.saturating_add(1);
        self.at = 0;
        self.begun = None;
        if self.failing.contains(&call) {
            self.faults = self.faults.saturating_add(1);
            return Err(HostFault);
        }
        let Some(place) = find_file(&self.names, &self.files, name) else {
            self.faults = self.faults.saturating_add(1);
            return Err(HostFault);
        };
        self.begun = Some(place);
        Ok(())
    }

    fn take(&mut self, into: &mut [u8]) -> Result<usize, HostFault>
        ensures bound { IfOk result (λ n. n ≤ length into.new) }
        ensures takes { TakesOf (⟦<MemHost as Host>⟧.seen self.old) (⟦<MemHost as Host>⟧.seen self.new) result into.new }
        ensures called { IsCall (record { failing = self.old.failing.items; calls = self.old.calls }) (record { failing = self.new.failing.items; calls = self.new.calls }) true result }
        ensures long { IfOk result (λ n. n ≡ min (length into.new) (length (begun_bytes self.old.files.items self.old.begun) - self.old.at)) }
    {
        let call = self.calls;
        self.calls = self.calls.saturating_add(1);
        if self.failing.contains(&call) {
            self.faults = self.faults.saturating_add(1);
            return Err(HostFault);
        }
        let bytes = bytes_begun(&self.files, self.begun);
        let count = into.len().min(bytes.len() - self.at);
        copy_front(&bytes[self.at..], into, count);
        self.at += count;
        Ok(count)
    }
}

/// A shelf of one name, whose bytes are written over those of its room.
#[derive(Drop)]
pub struct MemShelf {
    name: String,
    room: Vec<u8>,
    at: usize,
    begun: bool,
    failing: Vec<u64>,
    calls: u64,
    faults: u64,
    ghost in_range: { at ≤ vec_len room },
}

impl MemShelf {
    /// A shelf of this name, which has no bytes; the bytes of `room` are written over from the first on. It takes no memory.
    ///
    /// `make` of another name fails, and so does a put with no room left. The calls of all three kinds whose numbers, from 0,
    /// stand in `failing` fail and put nothing.
    pub fn new(name: String, room: Vec<u8>, failing: Vec<u64>) -> MemShelf
        ensures seen { ⟦<MemShelf as Shelf>⟧.seen result ≡ record
            { files = one_file (string_bytes name) []; made = None; begun = false; written = Some []; faults = 0; room = sure_room failing.items (vec_len room) } }
        ensures failing { result.failing ≡ failing }
        ensures calls { result.calls ≡ 0 }
    {
        MemShelf {
            name,
            room,
            at: 0,
            begun: false,
            failing,
            calls: 0,
            faults: 0,
        }
    }

    /// The bytes that its name has.
    pub fn written(&self) -> &[u8]
        ensures { (⟦<MemShelf as Shelf>⟧.seen self.now).files ≡ one_file (string_bytes self.now.name) result.now }
    {
        &self.room[..self.at]
    }
}

impl Shelf for MemShelf {
    ghost seen = { λ s. record {
      files = one_file (string_bytes s.name) (take s.at s.room.items);
      made = made_of (string_bytes s.name) s.begun;
      begun = s.begun;
      written =
          Some (put_bytes s.begun (take s.at s.room.items));
      faults = s.faults;
      room = sure_room s.failing.items (vec_len s.room - s.at);
    } };

    fn make(&mut self, name: &str) -> Result<(), HostFault>
        ensures makes { Makes (⟦<MemShelf as Shelf>⟧.seen self.old) (⟦<MemShelf as Shelf>⟧.seen self.new) name.now result }
        ensures called { IsCall (record { failing = self.old.failing.items; calls = self.old.calls }) (record { failing = self.new.failing.items; calls = self.new.calls })
            (bytes_eq (string_bytes self.old.name) name.now) result }
    {
        let call = self.calls;
        self.calls = self.calls.saturating_add(1);
        self.begun = false;
        if self.failing.contains(&call) {
            self.faults = self.faults.saturating_add(1);
            return Err(HostFault);
        }
        if self.name.as_str() != name {
            self.faults = self.faults.saturating_add(1);
            return Err(HostFault);
        }
        self.at = 0;
        self.begun = true;
        Ok(())
    }

    fn put(&mut self, piece: &[u8]) -> Result<usize, HostFault>
        ensures bound { IfOk result (λ n. n ≤ length piece.now) }
        ensures some { IfOk result (λ n. 0 < length piece.now → 0 < n) }
        ensures puts { PutsOn (⟦<MemShelf as Shelf>⟧.seen self.old) (⟦<MemShelf as Shelf>⟧.seen self.new) result piece.now }
        ensures called { IsCall (record { failing = self.old.failing.items; calls = self.old.calls }) (record { failing = self.new.failing.items; calls = self.new.calls })
            (self.old.begun && has_place (vec_len self.old.room - self.old.at) (length piece.now)) result }
        ensures long { IfOk result (λ n. n ≡ min (length piece.now) (vec_len self.old.room - self.old.at)) }
    {
        let call = self.calls;
        self.calls = self.calls.saturating_add(1);
        let full = self.at == self.room.len() && !piece.is_empty();
        if !self.begun || full || self.failing.contains(&call) {
            self.faults = self.faults.saturating_add(1);
            return Err(HostFault);
        }
        let count = write_over(&mut self.room, self.at, piece);
        self.at += count;
        Ok(count)
    }

    fn keep(&mut self) -> Result<(), HostFault>
        ensures keeps { Keeps (⟦<MemShelf as Shelf>⟧.seen self.old) (⟦<MemShelf as Shelf>⟧.seen self.new) result }
        ensures called { IsCall (record { failing = self.old.failing.items; calls = self.old.calls }) (record { failing = self.new.failing.items; calls = self.new.calls })
            self.old.begun result }
    {
        let call = self.calls;
        self.calls = self.calls.saturating_add(1);
        if !self.begun || self.failing.contains(&call) {
            self.faults = self.faults.saturating_add(1);
            return Err(HostFault);
        }
        Ok(())
    }
}

// The place of the first of these names that is this one.
fn find_name(names: &[String], name: &str) -> Option<usize>
    ensures { result ≡ position (λ n. bytes_eq (string_bytes n) name.now) names.now }
{
    names.iter().position(|known| known.as_str() == name)
}

// The place of the file of this name.
#[tactic(auto, using(crate::proofs::Named::named, crate::proofs::Named::unnamed, crate::proofs::Named::behind))]
fn find_file(names: &[String], files: &[Vec<u8>], name: &str) -> Option<usize>
    ensures none { IfNone result (file_of (map string_bytes names.now) (map (λ f. f.items) files.now) name.now ≡ None) }
    ensures some { IfSome result (λ k. file_of (map string_bytes names.now) (map (λ f. f.items) files.now) name.now ≡ Some (begun_bytes files.now (Some k))) }
{
    match find_name(names, name) {
        None => None,
        Some(place) => {
            if place < files.len() {
                Some(place)
            } else {
                None
            }
        }
    }
}

// The bytes of the file that is begun.
fn bytes_begun(files: &[Vec<u8>], begun: Option<usize>) -> &[u8]
    ensures { result.now ≡ begun_bytes files.now begun }
{
    match begun {
        Some(place) => match files.get(place) {
            Some(bytes) => bytes.as_slice(),
            None => &[],
        },
        None => &[],
    }
}
