//! A source and a sink over memory, which tell their bytes.

ghost use Rattle.std.specs.Prelude.{◌≡◌, ◌≤◌, ◌<◌, ◌-◌, ◌+◌, ◌++◌, min, true, ℕ, List, Option, Some, [], IfOk, length, take, drop, vec_len};
ghost use Rattle.outside.specs.Calls.{IsCall, has_place, bounded};
ghost use Rattle.outside.specs.Streams.{Takes, PutsSome, is_empty, sure_room};

use crate::{ReadFault, Sink, Source, WriteFault};

/// A source of given bytes.
#[derive(Drop)]
pub struct MemSource {
    bytes: Vec<u8>,
    at: usize,
    pieces: Vec<usize>,
    failing: Vec<u64>,
    calls: u64,
    faults: u64,
    ghost in_range: { at ≤ vec_len bytes },
}

impl MemSource {
    /// The source of these bytes.
    ///
    /// `pieces` bounds each take in turn, in bytes, where 0 counts as 1; after the list takes are unbounded.
    /// The calls whose numbers, from 0, stand in `failing` fail and take nothing.
    pub fn new(bytes: Vec<u8>, pieces: Vec<usize>, failing: Vec<u64>) -> MemSource
        ensures seen { ⟦<MemSource as Source>⟧.seen result ≡ record { told = Some bytes.items; faults = 0; sure = is_empty failing.items } }
        ensures pieces { result.pieces ≡ pieces }
        ensures failing { result.failing ≡ failing }
        ensures calls { result.calls ≡ 0 }
    {
        MemSource {
            bytes,
            at: 0,
            pieces,
            failing,
            calls: 0,
            faults: 0,
        }
    }
}

impl Source for MemSource {
    ghost seen = { λ s. record { told = Some (drop s.at s.bytes.items); faults = s.faults; sure = is_empty s.failing.items } };

    fn take(&mut self, into: &mut [u8]) -> Result<usize, ReadFault>
        ensures bound { IfOk result (λ n. n ≤ length into.new) }
        ensures takes { Takes (⟦<MemSource as Source>⟧.seen self.old) (⟦<MemSource as Source>⟧.seen self.new) result into.new }
        ensures called { IsCall (record { failing = self.old.failing.items; calls = self.old.calls }) (record { failing = self.new.failing.items; calls = self.new.calls }) true result }
        ensures long { IfOk result (λ n. n ≡ bounded self.old.pieces.items self.old.calls (min (length into.new) (vec_len self.old.bytes - self.old.at))) }
        ensures pieces { self.new.pieces ≡ self.old.pieces }
    {
        let call = self.calls;
        self.calls = self.calls.saturating_add(1);
        if self.failing.contains(&call) {
            self.faults = self.faults.saturating_add(1);
            return Err(ReadFault);
        }
        let most = into.len().min(self.bytes.len() - self.at);
        let count = piece_of(&self.pieces, call, most);
        copy_front(&self.bytes[self.at..], into, count);
        self.at += count;
        Ok(count)
    }
}

// Copies a front of the bytes of this length.
pub(crate) fn copy_front(from: &[u8], into: &mut [u8], count: usize)
    requires within { count ≤ length from.now }
    requires room { count ≤ length into.old }
    ensures copied { take count into.new ≡ take count from.now }
    ensures length { length into.new ≡ length into.old }
{
    into[..count].copy_from_slice(&from[..count]);
}

// As many as there are, up to the piece of this call.
fn piece_of(pieces: &[usize], call: u64, most: usize) -> usize
    ensures { result ≡ bounded pieces.now call most }
{
    match pieces.get(call as usize) {
        Some(piece) => most.min((*piece).max(1)),
        None => most,
    }
}

// Writes a front of the piece over the bytes from a place on, and says how long it is: as long as there is room.
pub(crate) fn write_over(room: &mut [u8], at: usize, piece: &[u8]) -> usize
    requires { at ≤ length room.old }
    ensures count { result ≡ min (length piece.now) (length room.old - at) }
    ensures within { at + result ≤ length room.new }
    ensures written { take (at + result) room.new ≡ take at room.old ++ take result piece.now }
{
    let count = piece.len().min(room.len() - at);
    room[at..at + count].copy_from_slice(&piece[..count]);
    count
}

/// A sink over the bytes of its room.
#[derive(Drop)]
pub struct MemSink {
    room: Vec<u8>,
    at: usize,
    failing: Vec<u64>,
    calls: u64,
    faults: u64,
    ghost in_range: { at ≤ vec_len room },
}

impl MemSink {
    /// An empty sink over the bytes of `room`, which are written over from the first on; it takes no memory.
    ///
    /// A put with no room left fails, and so do the calls whose numbers, from 0, stand in `failing`.
    pub fn new(room: Vec<u8>, failing: Vec<u64>) -> MemSink
        ensures seen { ⟦<MemSink as Sink>⟧.seen result ≡ record { told = Some []; faults = 0; room = sure_room failing.items (vec_len room) } }
        ensures failing { result.failing ≡ failing }
        ensures calls { result.calls ≡ 0 }
    {
        MemSink {
            room,
            at: 0,
            failing,
            calls: 0,
            faults: 0,
        }
    }

    /// The bytes that it was given.
    pub fn written(&self) -> &[u8]
        ensures { (⟦<MemSink as Sink>⟧.seen self.now).told ≡ Some result.now }
    {
        &self.room[..self.at]
    }
}

impl Sink for MemSink {
    ghost seen = { λ s. record { told = Some (take s.at s.room.items); faults = s.faults; room = sure_room s.failing.items (vec_len s.room - s.at) } };

    fn put(&mut self, piece: &[u8]) -> Result<usize, WriteFault>
        ensures bound { IfOk result (λ n. n ≤ length piece.now) }
        ensures some { IfOk result (λ n. 0 < length piece.now → 0 < n) }
        ensures puts { PutsSome (⟦<MemSink as Sink>⟧.seen self.old) (⟦<MemSink as Sink>⟧.seen self.new) result piece.now }
        ensures called { IsCall (record { failing = self.old.failing.items; calls = self.old.calls }) (record { failing = self.new.failing.items; calls = self.new.calls })
            (has_place (vec_len self.old.room - self.old.at) (length piece.now)) result }
        ensures long { IfOk result (λ n. n ≡ min (length piece.now) (vec_len self.old.room - self.old.at)) }
    {
        let call = self.calls;
        self.calls = self.calls.saturating_add(1);
        if self.failing.contains(&call) || (self.at == self.room.len() && !piece.is_empty()) {
            self.faults = self.faults.saturating_add(1);
            return Err(WriteFault);
        }
        let count = write_over(&mut self.room, self.at, piece);
        self.at += count;
        Ok(count)
    }
}
