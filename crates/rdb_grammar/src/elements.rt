//! The elements of collections, one by one.

ghost use Rattle.std.specs.Prelude.{◌≡◌, ◌≤◌, ℕ, List, length, FitsSigned, IfOk, IfErr};
ghost use Rattle.std.specs.Int.{w64};
ghost use Rattle.rdb_grammar.specs.Places.{Stands, Fails};
ghost use Rattle.rdb_grammar.specs.Scores.{score};
ghost use Rattle.rdb_grammar.specs.Strings.{string};
ghost use Rattle.rdb_grammar.specs.Layouts.{container};
ghost use Rattle.rdb_grammar.specs.Views.{text_of, container_of as number_of};
ghost use Rattle.rdb_grammar.specs.Returns.{Returns};

use crate::fault::{FileFault, LoadKind, Refused};
use crate::lengths::length_of;
use crate::placing::placed;
use crate::scores::score_of;
use crate::strings::{Chunk, string_of};
use crate::values::Container;

/// The string that begins at the offset `at` of a file's bytes, and the offset behind it: an element of a list or set, the field
/// or value of a hash, a member of a sorted set. Refused exactly by the string's first fault.
pub fn next_string(bytes: &[u8], at: usize) -> Result<(Chunk<'_>, usize), FileFault>
    requires { at ≤ length bytes.now }
    ensures string { IfOk result (λ x. Stands string (text_of x.0) bytes.now at x.1) }
    ensures fault { IfErr result (λ e. Fails string bytes.now at e.kind e.at) }
{
    placed(bytes, string_of(&bytes[at..]))
}

/// The score of a sorted set's member that begins at the offset `at` of a file's bytes, and the offset behind it: a binary
/// number of 64 bits that is whole and of a magnitude of 2^53 at most. Refused exactly by the score's first fault.
pub fn next_score(bytes: &[u8], at: usize) -> Result<(i64, usize), FileFault>
    requires { at ≤ length bytes.now }
    ensures score { IfOk result (λ x. Stands score x.0 bytes.now at x.1) }
    ensures fits { IfOk result (λ x. FitsSigned w64 x.0) }
    ensures fault { IfErr result (λ e. Fails score bytes.now at e.kind e.at) }
{
    placed(bytes, score_of(&bytes[at..]))
}

/// A container.
fn container_at(bytes: &[u8]) -> Result<(Container, &[u8]), Refused>
    ensures { Returns (λ x. (number_of x.0, x.1.now)) result (container.read bytes.now) }
{
    let (number, rest) = length_of(bytes)?;
    match number {
        1 => Ok((Container::Plain, rest)),
        2 => Ok((Container::Packed, rest)),
        _ => Err(Refused {
            kind: LoadKind::ListNode,
            left: bytes.len(),
        }),
    }
}

/// What the string of a list's node is, by the container that begins at the offset `at` of a file's bytes, and the offset of
/// that string. Refused exactly by the container's first fault.
pub fn next_container(bytes: &[u8], at: usize) -> Result<(Container, usize), FileFault>
    requires { at ≤ length bytes.now }
    ensures container { IfOk result (λ x. Stands container (number_of x.0) bytes.now at x.1) }
    ensures fault { IfErr result (λ e. Fails container bytes.now at e.kind e.at) }
{
    placed(bytes, container_at(&bytes[at..]))
}
