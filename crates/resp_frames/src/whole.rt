//! Requests whose words stand whole in the bytes are read at once. What isn't so, and what breaks a rule, is left to the
//! reading by steps.

ghost use Rattle.std.specs.Prelude.{◌<◌, ◌≤◌, ◌^◌, length, IfSome, IfOk};
ghost use Rattle.resp_frames.specs.WholeRead.{IsNumberLine, IsHeaded, IsWholeWord, ReadsAhead};
ghost use Rattle.resp_frames.specs.RequestRead.{Stands, StandsAtLength};

use crate::number::MOST_WORDS;
use crate::request::{Body, Due, Progress, read_body};
use crate::span::{Span, Spans};
use plain_world::LONGEST as LONGEST_WORD;
use std::alloc::AllocError;

/// A number, and how many bytes its text has, or its header.
#[derive(Clone, Copy)]
pub struct Numbered {
    pub number: usize,
    pub len: usize,
}

/// What became of a request that was read at once.
#[derive(Clone, Copy)]
pub enum Ahead {
    /// It ends there.
    Request(usize),
    /// It is read so far.
    Rest(Progress),
}

// The number above 0 and of at most so much that stands before the first CR, in the form in which it is printed.
fn number_line(bytes: &[u8], most: usize) -> Option<Numbered>
    requires some { 9 ≤ most }
    requires few { most < 2 ^ 32 }
    ensures { IfSome result (λ n. IsNumberLine most bytes.now n) }
{
    if bytes.is_empty() {
        return None;
    }
    let first = bytes[0];
    if first < b'1' {
        return None;
    }
    if first > b'9' {
        return None;
    }
    let mut number = usize::from(first - b'0');
    for i in 1..bytes.len() {
        let b = bytes[i];
        if b == b'\r' {
            return Some(Numbered { number, len: i });
        }
        if b < b'0' {
            return None;
        }
        if b > b'9' {
            return None;
        }
        number = number * 10 + usize::from(b - b'0');
        if number > most {
            return None;
        }
    }
    None
}

// The number and the length of the header at the front, where it begins with this mark, is whole, and its number is above 0
// and at most so much.
fn long_header(bytes: &[u8], mark: u8, most: usize) -> Option<Numbered>
    requires some { 9 ≤ most }
    requires few { most < 2 ^ 32 }
    ensures { IfSome result (λ h. IsHeaded mark most bytes.now h) }
{
    if bytes.is_empty() {
        return None;
    }
    if bytes[0] != mark {
        return None;
    }
    match number_line(&bytes[1..], most) {
        None => None,
        Some(text) => {
            let feed = text.len + 2;
            if feed >= bytes.len() {
                return None;
            }
            if bytes[feed] != b'\n' {
                return None;
            }
            Some(Numbered {
                number: text.number,
                len: text.len + 3,
            })
        }
    }
}

// The same where another byte follows and the number has one digit or two.
#[inline(always)]
fn short_header(bytes: &[u8], mark: u8, most: usize) -> Option<Numbered>
    requires some { 99 ≤ most }
    requires few { most < 2 ^ 32 }
    ensures { IfSome result (λ h. IsHeaded mark most bytes.now h) }
{
    if bytes.len() < 5 {
        return None;
    }
    if bytes[0] != mark {
        return None;
    }
    let digit = bytes[1];
    if digit < b'1' {
        return None;
    }
    if digit > b'9' {
        return None;
    }
    let number = usize::from(digit - b'0');
    let second = bytes[2];
    if second == b'\r' {
        if bytes[3] != b'\n' {
            return None;
        }
        return Some(Numbered { number, len: 4 });
    }
    if second < b'0' {
        return None;
    }
    if second > b'9' {
        return None;
    }
    if bytes[3] != b'\r' {
        return None;
    }
    if bytes[4] != b'\n' {
        return None;
    }
    Some(Numbered {
        number: number * 10 + usize::from(second - b'0'),
        len: 5,
    })
}

// The number and the length of a whole header, by the shorter way first.
#[inline(always)]
fn whole_header(bytes: &[u8], mark: u8, most: usize) -> Option<Numbered>
    requires some { 99 ≤ most }
    requires few { most < 2 ^ 32 }
    ensures { IfSome result (λ h. IsHeaded mark most bytes.now h) }
{
    match short_header(bytes, mark, most) {
        Some(head) => Some(head),
        None => long_header(bytes, mark, most),
    }
}

// The word that stands at this place as a whole bulk string.
fn whole_word(bytes: &[u8], read: usize) -> Option<Span>
    requires { read ≤ length bytes.now }
    ensures { IfSome result (λ word. IsWholeWord bytes.now read word) }
{
    let rest = &bytes[read..];
    match whole_header(rest, b'$', LONGEST_WORD) {
        None => None,
        Some(head) => match read_body(&rest[head.len..], head.number) {
            Body::Whole => Some(Span {
                start: read + head.len,
                len: head.number,
            }),
            _ => None,
        },
    }
}

// Reads the words from there on, as far as they stand whole.
fn read_words(
    bytes: &[u8],
    read: usize,
    words: usize,
    spans: &mut Spans,
) -> Result<Ahead, AllocError>
    requires { StandsAtLength bytes.now read words 0 spans.old.items }
    ensures { IfOk result (λ ahead. ReadsAhead bytes.now spans.new.items ahead) }
{
    let mut at = read;
    'words: while let Some(word) = whole_word(bytes, at) {
        spans.push(word)?;
        at = word.start + word.len + 2;
        if spans.len() == words {
            return Ok(Ahead::Request(at));
        }
    }
    Ok(Ahead::Rest(Progress {
        read: at,
        due: Due::Length(words, 0),
    }))
}

/// Reads the request at the front at once, as far as it stands whole, where nothing of it is read.
pub fn read_ahead(bytes: &[u8], progress: Progress, spans: &mut Spans) -> Result<Ahead, AllocError>
    requires { Stands bytes.now progress.read spans.old.items progress.due }
    ensures { IfOk result (λ ahead. ReadsAhead bytes.now spans.new.items ahead) }
{
    match progress.due {
        Due::Count(0) => match whole_header(bytes, b'*', MOST_WORDS) {
            None => Ok(Ahead::Rest(progress)),
            Some(head) => read_words(bytes, head.len, head.number, spans),
        },
        _ => Ok(Ahead::Rest(progress)),
    }
}
