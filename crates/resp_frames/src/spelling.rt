//! Replies into bytes.

ghost use Rattle.std.specs.Prelude.{◌≡◌, ◌≤◌, ◌∷◌, ◌++◌, ℕ, List, OnErr, decimal};
ghost use Rattle.outside.specs.Counts.{Rose};
ghost use Rattle.plain_world.specs.Refusals.{refusal_text};
ghost use Rattle.plain_world.specs.Spelling.{line_end, part_bytes, spelling};
ghost use Rattle.resp_frames.specs.Frames.{header};
ghost use Rattle.resp_frames.specs.Puts.{Puts};

use itoa::Buffer;
use outside::{Sink, WriteFault};
use plain_world::{Part, Refusal, Reply};

/// Puts all of the piece, or a front of it where that fails. `WriteFault` comes only where the sink counted one.
pub fn put_all<O: Sink>(sink: &mut O, piece: &[u8]) -> Result<(), WriteFault>
    ensures { Puts (O.seen sink.old) (O.seen sink.new) piece.now result }
{
    let mut at = 0;
    'pieces: while at < piece.len() {
        match sink.put(&piece[at..]) {
            Ok(n) => at += n,
            Err(fault) => return Err(fault),
        }
    }
    Ok(())
}

// The line of a refusal.
pub(crate) fn refusal_line(refusal: Refusal) -> &'static [u8]
    ensures { result.now ≡ refusal_text refusal ++ line_end }
{
    match refusal {
        Refusal::UnknownCommand => b"-ERR unknown command\r\n",
        Refusal::WrongNumberOfArguments => b"-ERR wrong number of arguments\r\n",
        Refusal::Syntax => b"-ERR syntax error\r\n",
        Refusal::WrongType =>
            b"-WRONGTYPE Operation against a key holding the wrong kind of value\r\n",
        Refusal::NotAnInteger => b"-ERR value is not an integer or out of range\r\n",
        Refusal::Overflow => b"-ERR increment or decrement would overflow\r\n",
        Refusal::NotAScore => b"-ERR score is not a number\r\n",
        Refusal::NotAWholeScore => b"-ERR score is not a whole number within 2^53\r\n",
        Refusal::NoSuchKey => b"-ERR no such key\r\n",
        Refusal::IndexOutOfRange => b"-ERR index out of range\r\n",
        Refusal::InvalidExpireTime => b"-ERR invalid expire time\r\n",
        Refusal::InvalidCursor => b"-ERR invalid cursor\r\n",
        Refusal::InvalidStreamId => b"-ERR invalid stream ID\r\n",
        Refusal::StreamIdNotGreater => b"-ERR stream ID is not greater than the last ID\r\n",
        Refusal::NoGreaterStreamId => b"-ERR stream has no greater ID\r\n",
        Refusal::DatabaseOutOfRange => b"-ERR DB index is out of range\r\n",
        Refusal::ValueOutOfRange => b"-ERR value is out of range\r\n",
        Refusal::SameSourceAndDestination => b"-ERR source and destination are the same\r\n",
        Refusal::GroupExists => b"-BUSYGROUP consumer group name already exists\r\n",
        Refusal::NoSuchGroup => b"-NOGROUP no such key or consumer group\r\n",
        Refusal::NestedMulti => b"-ERR MULTI calls can not be nested\r\n",
        Refusal::ExecAbort => b"-EXECABORT transaction discarded because of previous errors\r\n",
        Refusal::ExecWithoutMulti => b"-ERR EXEC without MULTI\r\n",
        Refusal::DiscardWithoutMulti => b"-ERR DISCARD without MULTI\r\n",
        Refusal::WatchInsideMulti => b"-ERR WATCH inside MULTI is not allowed\r\n",
    }
}

// Puts one piece, and then the other.
pub(crate) fn put_two<O: Sink>(sink: &mut O, first: &[u8], second: &[u8]) -> Result<(), WriteFault>
    ensures { Puts (O.seen sink.old) (O.seen sink.new) (first.now ++ second.now) result }
{
    match put_all(sink, first) {
        Ok(()) => put_all(sink, second),
        Err(fault) => Err(fault),
    }
}

// Puts a line: a mark, a text, CR LF.
fn put_line<O: Sink>(sink: &mut O, mark: &[u8], text: &[u8]) -> Result<(), WriteFault>
    ensures { Puts (O.seen sink.old) (O.seen sink.new) (mark.now ++ text.now ++ line_end) result }
{
    match put_two(sink, mark, text) {
        Ok(()) => put_all(sink, b"\r\n"),
        Err(fault) => Err(fault),
    }
}

// Puts a mark, a number, CR LF. The lengths of most strings are below 100, and need no buffer.
fn put_header<O: Sink>(sink: &mut O, mark: u8, n: u64) -> Result<(), WriteFault>
    ensures { Puts (O.seen sink.old) (O.seen sink.new) (header mark (decimal n)) result }
{
    if n < 10 {
        let ones = b'0' + n as u8;
        return put_all(sink, &[mark, ones, b'\r', b'\n']);
    }
    if n < 100 {
        let tens = b'0' + (n / 10) as u8;
        let ones = b'0' + (n % 10) as u8;
        return put_all(sink, &[mark, tens, ones, b'\r', b'\n']);
    }
    let mut buffer = Buffer::new();
    put_line(sink, &[mark], buffer.format(n).as_bytes())
}

// Puts a bulk string.
fn put_bulk<O: Sink>(sink: &mut O, bytes: &[u8]) -> Result<(), WriteFault>
    ensures { Puts (O.seen sink.old) (O.seen sink.new) (part_bytes (Part.Bulk bytes.now)) result }
{
    match put_header(sink, b'$', bytes.len() as u64) {
        Ok(()) => put_two(sink, bytes, b"\r\n"),
        Err(fault) => Err(fault),
    }
}

/// Writes the bytes of a part of a reply, or a front of them where that fails. It takes no memory of its own.
/// `WriteFault` comes only where the sink counted one.
pub fn put_part<O: Sink>(sink: &mut O, part: &Part) -> Result<(), WriteFault>
    ensures { Puts (O.seen sink.old) (O.seen sink.new) (part_bytes part.now) result }
{
    match part {
        Part::Simple(line) => put_line(sink, b"+", line.as_slice()),
        Part::Refused(refusal) => put_all(sink, refusal_line(*refusal)),
        Part::Number(n) => {
            let mut buffer = Buffer::new();
            put_line(sink, b":", buffer.format(*n).as_bytes())
        }
        Part::Bulk(bytes) => put_bulk(sink, bytes.as_slice()),
        Part::Null => put_all(sink, b"$-1\r\n"),
        Part::NullArray => put_all(sink, b"*-1\r\n"),
        Part::Array(n) => put_header(sink, b'*', *n),
    }
}

/// Writes the reply's bytes, or a front of them where that fails. It takes no memory of its own.
/// `WriteFault` comes only where the sink counted one.
pub fn spell<O: Sink>(reply: &Reply, sink: &mut O) -> Result<(), WriteFault>
    ensures { Puts (O.seen sink.old) (O.seen sink.new) (spelling reply.now) result }
{
    for part in reply.parts() {
        if let Err(fault) = put_part(sink, part) {
            return Err(fault);
        }
    }
    Ok(())
}
