//! Runs of the top call over the forms in memory.

use crate::case::Case;
use outside::{Clock, ListClock, ListPacer, MemHost, MemSink, MemSource, Pacer};
use program_top::top_call::redis_core;
use std::alloc::{AllocError, Global};

/// What became of a run.
#[derive(Drop)]
pub struct Came {
    pub status: u8,
    pub output: MemSink,
    pub notes: MemSink,
}

impl Came {
    /// Whether another run came to the same.
    pub fn is_same(&self, other: &Came) -> bool {
        self.status == other.status
            && self.output.written() == other.output.written()
            && self.notes.written() == other.notes.written()
    }
}

// A host with the file `f`, where there is one.
fn host_of(alloc: Global, case: &Case) -> Result<MemHost, AllocError> {
    let mut names = Vec::new(alloc);
    let mut files = Vec::new(alloc);
    if let Some(file) = &case.file {
        names.push(String::from_str(alloc, "f")?)?;
        files.push(Vec::from_slice(alloc, file.as_slice())?)?;
    }
    let failing = Vec::from_slice(alloc, case.host.as_slice())?;
    Ok(MemHost::new(names, files, failing))
}

// The input, in pieces of so many bytes.
fn source_of(
    alloc: Global,
    case: &Case,
    requests: &[u8],
    pieces: &[usize],
) -> Result<MemSource, AllocError> {
    Ok(MemSource::new(
        Vec::from_slice(alloc, requests)?,
        Vec::from_slice(alloc, pieces)?,
        Vec::from_slice(alloc, case.reads.as_slice())?,
    ))
}

/// A sink of so much room.
pub fn sink_of(alloc: Global, room: usize, failing: &[u64]) -> Result<MemSink, AllocError> {
    Ok(MemSink::new(vec![in alloc; 0u8; room]?, Vec::from_slice(alloc, failing)?))
}

/// Runs over these requests, which come in pieces of so many bytes.
pub fn ran(
    alloc: Global,
    case: &Case,
    requests: &[u8],
    pieces: &[usize],
) -> Result<Came, AllocError> {
    let mut host = host_of(alloc, case)?;
    let mut input = source_of(alloc, case, requests, pieces)?;
    let mut output = sink_of(alloc, case.room, case.writes.as_slice())?;
    let mut notes = sink_of(alloc, case.notes, &[])?;
    let moments = Vec::from_slice(alloc, case.moments.as_slice())?;
    let mut clock: Box<dyn Clock> = Box::new(alloc, ListClock::new(moments))?;
    let plans = Vec::from_slice(alloc, case.plans.as_slice())?;
    let pacer: Box<dyn Pacer> = Box::new(alloc, ListPacer::new(plans))?;
    let mut pacers = Vec::new(alloc);
    pacers.push(pacer)?;
    let status = redis_core(
        alloc,
        case.words.as_slice(),
        &mut host,
        &mut input,
        &mut output,
        &mut notes,
        &mut clock,
        pacers,
    );
    Ok(Came {
        status,
        output,
        notes,
    })
}
