//! The header of a request or of a bulk string: a mark, a number, CR LF.

ghost use Rattle.std.specs.Prelude.{◌≡◌, ◌≢◌, ◌<◌, ◌≤◌, ℕ, length, take, slice_index};
ghost use Rattle.resp_frames.specs.Frames.{IsPlainText, IsWithout, longest_header};
ghost use Rattle.resp_frames.specs.HeaderRead.{ReadsHeader, ReadsText, IsScanned};

use crate::rule::Rule;

// At most so many bytes stand before the CR of a header, its mark among them.
const LONGEST_HEADER: usize = 65_536;

/// What stands at the front of some bytes.
#[derive(Clone, Copy)]
pub enum Header {
    /// The first byte is another one than the mark.
    Other,
    /// A header that isn't whole. So many bytes of its text are there, and hold no CR.
    Open(usize),
    /// The text that follows the mark is so long.
    Text(usize),
    /// A rule is broken, at this byte.
    Broken(Rule, usize),
}

/// How many bytes stand before the first `end`, up to `limit`. The first `scanned` are known to be others.
pub fn before_end(bytes: &[u8], end: u8, limit: usize, scanned: usize) -> usize
    requires within { scanned ≤ length bytes.now }
    requires few { scanned ≤ limit }
    requires plain { IsWithout end (take scanned bytes.now) }
    ensures within { result ≤ length bytes.now }
    ensures few { result ≤ limit }
    ensures plain { IsWithout end (take result bytes.now) }
    ensures found { result < length bytes.now → result ≢ limit → slice_index bytes.now result ≡ end }
{
    let most = bytes.len().min(limit);
    for i in scanned..most {
        if bytes[i] == end {
            return i;
        }
    }
    most
}

// Reads the header whose mark stands before these bytes.
fn read_text(bytes: &[u8], scanned: usize) -> Header
    requires within { scanned ≤ length bytes.now }
    requires few { scanned ≤ longest_header }
    requires plain { IsPlainText (take scanned bytes.now) }
    ensures { ReadsText bytes.now result }
{
    let text = before_end(bytes, b'\r', LONGEST_HEADER, scanned);
    if text == LONGEST_HEADER {
        return Header::Broken(Rule::LineTooLong, 0);
    }
    if text + 1 >= bytes.len() {
        return Header::Open(text);
    }
    if bytes[text + 1] != b'\n' {
        return Header::Broken(Rule::ExpectedCrLf, text + 2);
    }
    Header::Text(text)
}

/// Reads the header at the front, which begins with this mark.
/// The first `scanned` bytes of its text are known to hold no CR, and aren't read again.
pub fn read_header(bytes: &[u8], mark: u8, scanned: usize) -> Header
    requires { IsScanned bytes.now scanned }
    ensures { ReadsHeader mark bytes.now result }
{
    if bytes.is_empty() {
        return Header::Open(0);
    }
    if bytes[0] != mark {
        return Header::Other;
    }
    read_text(&bytes[1..], scanned)
}
