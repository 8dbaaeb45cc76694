//! A request: a header with a number of words and so many bulk strings, or a line. It is read as far as its bytes have
//! come, and later from there on.

ghost use Rattle.std.specs.Prelude.{◌≡◌, ◌≤◌, IfOk};
ghost use Rattle.plain_world.specs.Words.{longest};
ghost use Rattle.resp_frames.specs.RequestRead.{Stands, StandsAtCount, StandsAtLine, StandsAtLength, StandsAtBody, ReadsBody, ReadsStep, ReadsRequest, step_after};

use crate::header::{Header, read_header};
use crate::line::{Inline, push_words, read_line, without_return};
use crate::number::{Count, read_count, small_number};
use crate::rule::Rule;
use crate::span::{Span, Spans};
use plain_world::LONGEST as LONGEST_WORD;
use std::alloc::AllocError;

/// What is due next in a request.
#[derive(Clone, Copy)]
pub enum Due {
    /// The number of its words. So many bytes of that header's text hold no CR.
    Count(usize),
    /// The end of an inline request's line. So many bytes of it hold no LF.
    Line(usize),
    /// The length of a word, in a request of so many words. So many bytes of that header's text hold no CR.
    Length(usize, usize),
    /// The bytes of a word, in a request of so many words, and their length.
    Body(usize, usize),
}

/// How far a request is read.
#[derive(Clone, Copy)]
pub struct Progress {
    /// So many of its bytes are read for good.
    pub read: usize,
    pub due: Due,
}

impl Progress {
    /// Nothing is read.
    pub fn start() -> Progress
        ensures { result ≡ record { read = 0; due = Due.Count 0 } }
    {
        Progress {
            read: 0,
            due: Due::Count(0),
        }
    }
}

/// What a step of reading found.
#[derive(Clone, Copy)]
pub enum Step {
    /// It goes on.
    On(Progress),
    /// More bytes are due.
    Open(Progress),
    /// The request ends there.
    Request(usize),
    /// A header or a line that is passed over ends there.
    Passed(usize),
    /// A rule is broken, at this byte.
    Broken(Rule, usize),
}

/// What was found at the front of some bytes.
#[derive(Clone, Copy)]
pub enum Found {
    /// Nothing, or a request that isn't whole, and how far it is read.
    Open(Progress),
    /// A request that ends there.
    Request(usize),
    /// A header or a line that is passed over, which ends there.
    Passed(usize),
    /// A rule is broken, at this byte.
    Broken(Rule, usize),
}

// Reads an inline request.
fn step_line(bytes: &[u8], scanned: usize, spans: &mut Spans) -> Result<Step, AllocError>
    requires { StandsAtLine bytes.now 0 scanned spans.old.items }
    ensures { IfOk result (λ step. ReadsStep bytes.now 0 spans.new.items step) }
{
    match read_line(bytes, scanned) {
        Inline::Open(text) => Ok(Step::Open(Progress {
            read: 0,
            due: Due::Line(text),
        })),
        Inline::Broken(rule, at) => Ok(Step::Broken(rule, at)),
        Inline::Text(text) => {
            push_words(without_return(&bytes[..text]), spans)?;
            if spans.is_empty() {
                Ok(Step::Passed(text + 1))
            } else {
                Ok(Step::Request(text + 1))
            }
        }
    }
}

// Reads the number of words, or the line where the request is inline.
fn step_count(bytes: &[u8], scanned: usize, spans: &mut Spans) -> Result<Step, AllocError>
    requires { StandsAtCount bytes.now 0 scanned spans.old.items }
    ensures { IfOk result (λ step. ReadsStep bytes.now 0 spans.new.items step) }
{
    match read_header(bytes, b'*', scanned) {
        Header::Other => step_line(bytes, 0, spans),
        Header::Open(text) => Ok(Step::Open(Progress {
            read: 0,
            due: Due::Count(text),
        })),
        Header::Broken(rule, at) => Ok(Step::Broken(rule, at)),
        Header::Text(text) => match read_count(&bytes[1..text + 1]) {
            Count::Wrong => Ok(Step::Broken(Rule::InvalidMultibulkLength, 0)),
            Count::Passed => Ok(Step::Passed(text + 3)),
            Count::Words(words) => Ok(Step::On(Progress {
                read: text + 3,
                due: Due::Length(words, 0),
            })),
        },
    }
}

// Reads the length of a word.
fn step_length(bytes: &[u8], read: usize, words: usize, scanned: usize, spans: &Spans) -> Step
    requires { StandsAtLength bytes.now read words scanned spans.now.items }
    ensures { ReadsStep bytes.now read spans.now.items result }
{
    let rest = &bytes[read..];
    match read_header(rest, b'$', scanned) {
        Header::Other => Step::Broken(Rule::ExpectedDollar, read),
        Header::Open(text) => Step::Open(Progress {
            read,
            due: Due::Length(words, text),
        }),
        Header::Broken(rule, at) => Step::Broken(rule, read + at),
        Header::Text(text) => match small_number(&rest[1..text + 1], LONGEST_WORD as u64) {
            None => Step::Broken(Rule::InvalidBulkLength, read),
            Some(len) => Step::On(Progress {
                read: read + text + 3,
                due: Due::Body(words, len as usize),
            }),
        },
    }
}

/// What stands where a word of a known length is due.
#[derive(Clone, Copy)]
pub enum Body {
    /// More bytes are due.
    Open,
    /// The word, and CR LF.
    Whole,
    /// This byte isn't that of CR LF.
    Broken(usize),
}

/// Looks for the word and its CR LF.
pub fn read_body(bytes: &[u8], len: usize) -> Body
    requires { len ≤ longest }
    ensures { ReadsBody bytes.now len result }
{
    if bytes.len() <= len {
        return Body::Open;
    }
    if bytes[len] != b'\r' {
        return Body::Broken(len);
    }
    if bytes.len() == len + 1 {
        return Body::Open;
    }
    if bytes[len + 1] != b'\n' {
        return Body::Broken(len + 1);
    }
    Body::Whole
}

// Reads a word. Its bytes aren't looked at, only what follows them.
fn step_body(
    bytes: &[u8],
    read: usize,
    words: usize,
    len: usize,
    spans: &mut Spans,
) -> Result<Step, AllocError>
    requires { StandsAtBody bytes.now read words len spans.old.items }
    ensures { IfOk result (λ step. ReadsStep bytes.now read spans.new.items step) }
{
    match read_body(&bytes[read..], len) {
        Body::Open => Ok(Step::Open(Progress {
            read,
            due: Due::Body(words, len),
        })),
        Body::Broken(at) => Ok(Step::Broken(Rule::ExpectedCrLf, read + at)),
        Body::Whole => {
            spans.push(Span { start: read, len })?;
            Ok(after_word(read + len + 2, words, spans.len()))
        }
    }
}

// What is due after so many whole words, the last of which ends there.
fn after_word(end: usize, words: usize, whole: usize) -> Step
    ensures { result ≡ step_after end words whole }
{
    if whole == words {
        Step::Request(end)
    } else {
        Step::On(Progress {
            read: end,
            due: Due::Length(words, 0),
        })
    }
}

// Reads what is due.
fn take_step(bytes: &[u8], progress: Progress, spans: &mut Spans) -> Result<Step, AllocError>
    requires { Stands bytes.now progress.read spans.old.items progress.due }
    ensures { IfOk result (λ step. ReadsStep bytes.now progress.read spans.new.items step) }
{
    match progress.due {
        Due::Count(scanned) => step_count(bytes, scanned, spans),
        Due::Line(scanned) => step_line(bytes, scanned, spans),
        Due::Length(words, scanned) => {
            Ok(step_length(bytes, progress.read, words, scanned, spans))
        }
        Due::Body(words, len) => step_body(bytes, progress.read, words, len, spans),
    }
}

/// Reads on, as far as the bytes go.
pub fn read_request(
    bytes: &[u8],
    progress: Progress,
    spans: &mut Spans,
) -> Result<Found, AllocError>
    requires { Stands bytes.now progress.read spans.old.items progress.due }
    ensures { IfOk result (λ found. ReadsRequest bytes.now spans.new.items found) }
{
    let mut at = progress;
    'steps: loop {
        match take_step(bytes, at, spans)? {
            Step::On(next) => at = next,
            Step::Open(open) => return Ok(Found::Open(open)),
            Step::Request(end) => return Ok(Found::Request(end)),
            Step::Passed(end) => return Ok(Found::Passed(end)),
            Step::Broken(rule, place) => return Ok(Found::Broken(rule, place)),
        }
    }
}
