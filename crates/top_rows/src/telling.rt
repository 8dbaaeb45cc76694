//! What is told of runs.

use crate::case::Case;
use crate::running::{Came, ran};
use crate::talking::{Talk, among, bare, whole};
use row_text::shown;
use std::alloc::{AllocError, Global};

// How many replies are as wanted, and what stands in the place of the next one.
fn short_text(alloc: Global, talk: &Talk, output: &[u8]) -> Result<String, AllocError> {
    let (answered, all) = (talk.answered(output), talk.ends.len());
    let last = answered.checked_sub(1);
    let from = last.and_then(|at| talk.ends.get(at).copied()).unwrap_or(0);
    let rest = output.get(from..).unwrap_or(output);
    if rest.is_empty() {
        return format!(in alloc; "{answered} of {all} replies");
    }
    let rest = shown(alloc, rest)?;
    format!(in alloc; "{answered} of {all} replies, and then {rest}")
}

// The output beside the replies that are due, or the output alone where none are.
fn output_text(alloc: Global, talk: &Talk, output: &[u8]) -> Result<String, AllocError> {
    if talk.ends.is_empty() {
        return shown(alloc, output);
    }
    if output == talk.replies.as_slice() {
        return String::from_str(alloc, "as wanted");
    }
    short_text(alloc, talk, output)
}

// The status, the notes, and the output.
fn run_text(alloc: Global, talk: &Talk, came: &Came) -> Result<String, AllocError> {
    let status = came.status;
    let notes = shown(alloc, came.notes.written())?;
    let output = output_text(alloc, talk, came.output.written())?;
    format!(in alloc; "{status} [{notes}] {output}")
}

/// What becomes of a run over the rows in the order that the name says.
pub fn told(alloc: Global, case: &Case, name: &str) -> Result<String, AllocError> {
    let talk = match name {
        "bare" => bare(alloc, case)?,
        "among" => among(alloc, case)?,
        _ => whole(alloc, case)?,
    };
    let came = ran(
        alloc,
        case,
        talk.requests.as_slice(),
        case.pieces.as_slice(),
    )?;
    run_text(alloc, &talk, &came)
}

// Whether the run comes to the same where the input comes in two pieces, in each way.
fn same_in_two(
    alloc: Global,
    case: &Case,
    requests: &[u8],
    whole: &Came,
) -> Result<bool, AllocError> {
    for first in 1..requests.len() {
        let came = ran(alloc, case, requests, &[first])?;
        if !whole.is_same(&came) {
            return Ok(false);
        }
    }
    Ok(true)
}

/// What becomes of a run, and whether it is the same in each two pieces and byte by byte.
pub fn told_in_pieces(alloc: Global, case: &Case) -> Result<String, AllocError> {
    let talk = whole(alloc, case)?;
    let requests = talk.requests.as_slice();
    let came = ran(alloc, case, requests, &[])?;
    let ones = vec![in alloc; 1usize; requests.len()]?;
    let slow = ran(alloc, case, requests, ones.as_slice())?;
    let is_same = came.is_same(&slow) && same_in_two(alloc, case, requests, &came)?;
    let text = run_text(alloc, &talk, &came)?;
    format!(in alloc; "{text} | the same in pieces: {is_same}")
}
