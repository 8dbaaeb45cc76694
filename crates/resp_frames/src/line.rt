//! The line of an inline request: the bytes up to LF, and the words in it.

ghost use Rattle.std.specs.Prelude.{◌≡◌, ◌<◌, ◌≤◌, ℕ, [], length, take, slice_index, IfOk, IfSome, IfNone, true};
ghost use Rattle.std.specs.Io.BufRead.{strip_last};
ghost use Rattle.resp_frames.specs.Frames as frames;
ghost use Rattle.resp_frames.specs.Frames.{IsUnquoted};
ghost use Rattle.resp_frames.specs.LineRead.{IsLineScanned, IsWithoutBlank, IsQuotedAt, ReadsLine, AreWords};

use crate::header::before_end;
use crate::rule::Rule;
use crate::span::{Span, Spans};
use std::alloc::AllocError;

// At most so many bytes stand before the LF of a line.
const LONGEST_LINE: usize = 65_536;

/// What stands at the front of some bytes.
#[derive(Clone, Copy)]
pub enum Inline {
    /// A line that isn't whole. So many bytes of it are there, and hold no LF.
    Open(usize),
    /// So many bytes stand before the LF, and no quote is among them.
    Text(usize),
    /// A rule is broken, at this byte.
    Broken(Rule, usize),
}

// Whether it is a double or a single quote.
fn is_quote(b: u8) -> bool
    ensures { result ≡ frames.is_quote b }
{
    b == b'"' || b == b'\''
}

// Whether it is a space or a tab.
fn is_blank(b: u8) -> bool
    ensures { result ≡ frames.is_blank b }
{
    b == b' ' || b == b'\t'
}

// Where the first quote stands.
fn first_quote(text: &[u8]) -> Option<usize>
    ensures some { IfSome result (λ at. IsQuotedAt text.now at) }
    ensures none { IfNone result (IsUnquoted text.now) }
{
    for i in 0..text.len() {
        if is_quote(text[i]) {
            return Some(i);
        }
    }
    None
}

/// Reads the line at the front. The first `scanned` bytes are known to hold no LF, and aren't read again.
pub fn read_line(bytes: &[u8], scanned: usize) -> Inline
    requires { IsLineScanned bytes.now scanned }
    ensures { ReadsLine bytes.now result }
{
    let text = before_end(bytes, b'\n', LONGEST_LINE + 1, scanned);
    if text > LONGEST_LINE {
        return Inline::Broken(Rule::LineTooLong, 0);
    }
    if text == bytes.len() {
        return Inline::Open(text);
    }
    match first_quote(&bytes[..text]) {
        Some(at) => Inline::Broken(Rule::QuotedInline, at),
        None => Inline::Text(text),
    }
}

/// The line without one CR at its end.
pub fn without_return(text: &[u8]) -> &[u8]
    ensures { result.now ≡ strip_last 13 text.now }
{
    let len = text.len();
    if len > 0 && text[len - 1] == b'\r' {
        &text[..len - 1]
    } else {
        text
    }
}

// How many bytes stand before the first space or tab.
fn before_blank(bytes: &[u8]) -> usize
    ensures within { result ≤ length bytes.now }
    ensures plain { IsWithoutBlank (take result bytes.now) }
    ensures found { result < length bytes.now → frames.is_blank (slice_index bytes.now result) ≡ true }
{
    for i in 0..bytes.len() {
        if is_blank(bytes[i]) {
            return i;
        }
    }
    bytes.len()
}

/// Adds to none where the words of a line stand, which has no line end.
pub fn push_words(line: &[u8], spans: &mut Spans) -> Result<(), AllocError>
    requires { spans.old.items ≡ [] }
    ensures { IfOk result (λ done. AreWords line.now spans.new.items) }
{
    let mut at = 0;
    'words: while at < line.len() {
        let len = before_blank(&line[at..]);
        if len == 0 {
            at += 1;
        } else {
            spans.push(Span { start: at, len })?;
            at += len;
        }
    }
    Ok(())
}
