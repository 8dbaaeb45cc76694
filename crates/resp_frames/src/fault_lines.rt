//! The lines of broken rules.

ghost use Rattle.std.specs.Prelude.{◌≡◌};
ghost use Rattle.resp_frames.specs.FaultLines.{rule_text, place_text, fault_line};
ghost use Rattle.resp_frames.specs.Puts.{Puts};

use crate::rule::Rule;
use crate::spelling::{put_all, put_two};
use itoa::Buffer;
use outside::{Sink, WriteFault};

// What is wrong where this rule is broken.
pub(crate) fn text_of_rule(rule: Rule) -> &'static [u8]
    ensures { result.now ≡ rule_text rule }
{
    match rule {
        Rule::InvalidMultibulkLength => b"invalid multibulk length",
        Rule::ExpectedDollar => b"expected '$'",
        Rule::InvalidBulkLength => b"invalid bulk length",
        Rule::LineTooLong => b"line too long",
        Rule::ExpectedCrLf => b"expected CR LF",
        Rule::QuotedInline => b"inline request not taken",
    }
}

// Puts the place of a broken rule, and the line's end.
fn put_place<O: Sink>(sink: &mut O, at: u64) -> Result<(), WriteFault>
    ensures { Puts (O.seen sink.old) (O.seen sink.new) (place_text at) result }
{
    let mut buffer = Buffer::new();
    match put_two(sink, b" at byte ", buffer.format(at).as_bytes()) {
        Ok(()) => put_all(sink, b"\r\n"),
        Err(fault) => Err(fault),
    }
}

/// Puts the line of a rule that is broken at this byte, or a front of it where that fails.
/// `WriteFault` comes only where the sink counted one.
pub fn put_fault<O: Sink>(sink: &mut O, rule: Rule, at: u64) -> Result<(), WriteFault>
    ensures { Puts (O.seen sink.old) (O.seen sink.new) (fault_line rule at) result }
{
    match put_two(sink, b"-ERR Protocol error: ", text_of_rule(rule)) {
        Ok(()) => put_place(sink, at),
        Err(fault) => Err(fault),
    }
}
