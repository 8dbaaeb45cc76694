//! What each line does, and answers.

use crate::case::Case;
use crate::noting::{noted, put_one_by_one, words_behind};
use crate::planned::plans_change_no_reply;
use crate::setting::set;
use crate::telling::{told, told_in_pieces};
use row_text::number;
use std::alloc::{AllocError, Global};

// A line that says what a run is given, and behind it what becomes of that run.
fn tried(case: &mut Case, alloc: Global, line: &str) -> Result<String, AllocError> {
    if !set(case, alloc, line)? {
        return String::from_str(alloc, "?");
    }
    told(alloc, case, "whole")
}

// The same in pieces.
fn cut(case: &mut Case, alloc: Global, line: &str) -> Result<String, AllocError> {
    if !set(case, alloc, line)? {
        return String::from_str(alloc, "?");
    }
    told_in_pieces(alloc, case)
}

// A line that says what the next run is given: it answers nothing.
fn given(case: &mut Case, alloc: Global, line: &str) -> Result<Option<String>, AllocError> {
    if set(case, alloc, line)? {
        return Ok(None);
    }
    Ok(Some(String::from_str(alloc, "?")?))
}

// Whether plans change no reply.
fn planned(alloc: Global, rest: &str) -> Result<String, AllocError> {
    let holds = plans_change_no_reply(alloc, number(rest))?;
    format!(in alloc; "{holds}")
}

/// What a line answers; nothing where it says what a run is given, or stands behind `//`.
pub fn answer(case: &mut Case, alloc: Global, line: &str) -> Result<Option<String>, AllocError> {
    let (name, rest) = line.split_once(' ').unwrap_or((line, ""));
    match name {
        "//" => Ok(None),
        "case" => {
            *case = Case::new(alloc);
            Ok(Some(String::new(alloc)))
        }
        "run" => Ok(Some(told(alloc, case, rest)?)),
        "try" => Ok(Some(tried(case, alloc, rest)?)),
        "cut" => Ok(Some(cut(case, alloc, rest)?)),
        "one_by_one" => Ok(Some(put_one_by_one(alloc, rest)?)),
        "note" => Ok(Some(noted(alloc, rest)?)),
        "behind" => Ok(Some(words_behind(alloc, rest)?)),
        "planned" => Ok(Some(planned(alloc, rest)?)),
        _ => given(case, alloc, line),
    }
}
