//! How long the bytes of replies and of faults' lines are, without these bytes.

ghost use Rattle.std.specs.Prelude.{◌≡◌, ◌≤◌, ◌%◌, ◌^◌, length, decimal};
ghost use Rattle.std.specs.Fmt.{signed_decimal};
ghost use Rattle.plain_world.specs.Spelling.{part_bytes, spelling};
ghost use Rattle.resp_frames.specs.FaultLines.{fault_line};

use crate::fault_lines::text_of_rule;
use crate::rule::Rule;
use crate::spelling::refusal_line;
use itoa::Buffer;
use plain_world::{Part, Reply};

// How many digits a number has.
fn digits(n: u64) -> usize
    ensures many { result ≡ length (decimal n) }
    ensures few { result ≤ 40 }
{
    let mut buffer = Buffer::new();
    buffer.format(n).as_bytes().len()
}

// The same, of a number with a sign, which counts too.
fn signed_digits(n: i64) -> usize
    ensures many { result ≡ length (signed_decimal n) }
    ensures few { result ≤ 40 }
{
    let mut buffer = Buffer::new();
    buffer.format(n).as_bytes().len()
}

// How long the bytes of a part are.
fn part_len(part: &Part) -> u64
    ensures { result ≡ length (part_bytes part.now) }
{
    match part {
        Part::Simple(line) => line.as_slice().len() as u64 + 3,
        Part::Refused(refusal) => refusal_line(*refusal).len() as u64,
        Part::Number(n) => signed_digits(*n) as u64 + 3,
        Part::Bulk(bytes) => {
            let len = bytes.as_slice().len() as u64;
            digits(len) as u64 + len + 5
        }
        Part::Null => 5,
        Part::NullArray => 5,
        Part::Array(n) => digits(*n) as u64 + 3,
    }
}

/// How long the reply's bytes are, modulo 2^64. It takes no memory.
pub fn spelled_len(reply: &Reply) -> u64
    ensures { result ≡ length (spelling reply.now) % 2 ^ 64 }
{
    let mut len: u64 = 0;
    for part in reply.parts() {
        len = len.wrapping_add(part_len(part));
    }
    len
}

/// How long the line of a rule is that is broken at this byte.
pub fn fault_len(rule: Rule, at: u64) -> usize
    ensures { result ≡ length (fault_line rule at) }
{
    text_of_rule(rule).len() + digits(at) + 32
}
