//! Lines of single calls: the notes of each ending, the words behind the program's name, and a sink of one byte a put.

ghost use Rattle.std.specs.Prelude.{Some, None};

use crate::running::sink_of;
use crate::words::words;
use outside::{Clock, ListClock, MemHost, MemSource, Sink, WriteFault};
use program_top::ending::Ending;
use program_top::notes::note;
use program_top::top_call::redis_core;
use program_top::words::behind;
use rdb_grammar::LoadKind;
use resp_frames::Rule;
use row_text::{number, shown, spelled};
use std::alloc::{AllocError, Global};

// The ending of a name, of which some are at a byte.
fn ending_of(name: &str, at: u64) -> Ending {
    match name {
        "whole" => Ending::Whole,
        "quit" => Ending::Quit,
        "invalid_bulk_length" => Ending::Protocol {
            rule: Rule::InvalidBulkLength,
            at,
        },
        "cut" => Ending::Cut,
        "read_fault" => Ending::ReadFault,
        "write_fault" => Ending::WriteFault,
        "host" => Ending::Host,
        "too_long" => Ending::Refused {
            kind: LoadKind::TooLong,
            at,
        },
        "memory" => Ending::Memory,
        "limit" => Ending::Limit,
        _ => Ending::Usage,
    }
}

/// The notes of an ending, and its status: `NAME`, or `NAME AT`.
pub fn noted(alloc: Global, rest: &str) -> Result<String, AllocError> {
    let (name, at) = rest.split_once(' ').unwrap_or((rest, ""));
    let ending = ending_of(name, number(at));
    let mut notes = sink_of(alloc, 100, &[])?;
    note(&mut notes, ending);
    let (status, line) = (ending.status(), shown(alloc, notes.written())?);
    format!(in alloc; "{status} [{line}]")
}

/// The words behind the first, a bar behind each.
pub fn words_behind(alloc: Global, rest: &str) -> Result<String, AllocError> {
    let all = words(alloc, rest)?;
    let mut text = String::new(alloc);
    for word in behind(all.as_slice()) {
        text.push_str(word.as_str())?;
        text.push('|')?;
    }
    Ok(text)
}

// A sink that takes one byte at a time.
#[derive(Drop)]
struct OneByOne {
    bytes: Vec<u8>,
    faults: u64,
}

impl Sink for OneByOne {
    ghost seen = { λ s. record { told = Some s.bytes.items; faults = s.faults; room = None } };

    fn put(&mut self, piece: &[u8]) -> Result<usize, WriteFault> {
        let count = piece.len().min(1);
        match self.bytes.extend_from_slice(&piece[..count]) {
            Ok(()) => Ok(count),
            Err(_) => {
                self.faults = self.faults.saturating_add(1);
                Err(WriteFault)
            }
        }
    }
}

/// The status and the output of a run that puts one byte at a time.
pub fn put_one_by_one(alloc: Global, rest: &str) -> Result<String, AllocError> {
    let requests = spelled(alloc, rest)?;
    let mut host = MemHost::new(Vec::new(alloc), Vec::new(alloc), Vec::new(alloc));
    let mut input = MemSource::new(requests, Vec::new(alloc), Vec::new(alloc));
    let mut output = OneByOne {
        bytes: Vec::new(alloc),
        faults: 0,
    };
    let mut notes = sink_of(alloc, 0, &[])?;
    let mut clock: Box<dyn Clock> = Box::new(alloc, ListClock::new(Vec::new(alloc)))?;
    let status = redis_core(
        alloc,
        &[],
        &mut host,
        &mut input,
        &mut output,
        &mut notes,
        &mut clock,
        Vec::new(alloc),
    );
    let told = shown(alloc, output.bytes.as_slice())?;
    format!(in alloc; "{status} {told}")
}
