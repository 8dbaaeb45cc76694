//! The lines of the notes.

ghost use Rattle.std.specs.Prelude.{◌≡◌, ◌++◌, codes};
ghost use Rattle.std.specs.Fmt.{decimal};
ghost use Rattle.resp_frames.specs.Puts.{Puts};
ghost use Rattle.program_top.specs.Notes.{Notes, PutsLine, line_feed, numbered_fault_line, line_of};

use crate::ending::Ending;
use itoa::Buffer;
use outside::{Sink, WriteFault};
use resp_frames::put_all;

// Puts a text, and behind it a number.
fn put_number<N: Sink>(notes: &mut N, text: &[u8], number: u64) -> Result<(), WriteFault>
    ensures { Puts (N.seen notes.old) (N.seen notes.new) (text.now ++ decimal number) result }
{
    match put_all(notes, text) {
        Ok(()) => {
            let mut buffer = Buffer::new();
            put_all(notes, buffer.format(number).as_bytes())
        }
        Err(fault) => Err(fault),
    }
}

// Puts the byte of a fault, and the line's end.
fn put_place<N: Sink>(notes: &mut N, at: u64) -> Result<(), WriteFault>
    ensures { Puts (N.seen notes.old) (N.seen notes.new) (codes " at byte " ++ decimal at ++ line_feed) result }
{
    match put_number(notes, b" at byte ", at) {
        Ok(()) => put_all(notes, b"\n"),
        Err(fault) => Err(fault),
    }
}

// Puts the line of a fault that has a number, at a byte.
fn put_numbered_fault<N: Sink>(
    notes: &mut N,
    text: &[u8],
    number: u8,
    at: u64,
) -> Result<(), WriteFault>
    ensures { Puts (N.seen notes.old) (N.seen notes.new) (numbered_fault_line text.now number at) result }
{
    match put_number(notes, text, number as u64) {
        Ok(()) => put_place(notes, at),
        Err(fault) => Err(fault),
    }
}

// Puts the line of an ending, if it has one.
fn put_line<N: Sink>(notes: &mut N, ending: Ending) -> Result<(), WriteFault>
    ensures { PutsLine (N.seen notes.old) (N.seen notes.new) (line_of ending) result }
{
    match ending {
        Ending::Whole => Ok(()),
        Ending::Quit => Ok(()),
        Ending::Usage => put_all(notes, b"redis-core: wrong usage\n"),
        Ending::Protocol { rule, at } => put_numbered_fault(
            notes,
            b"redis-core: protocol error P",
            rule.number(),
            at,
        ),
        Ending::Cut => put_all(notes, b"redis-core: input ended inside a request\n"),
        Ending::ReadFault => put_all(notes, b"redis-core: input failed\n"),
        Ending::WriteFault => put_all(notes, b"redis-core: output failed\n"),
        Ending::Host => put_all(notes, b"redis-core: file could not be read\n"),
        Ending::Refused { kind, at } => put_numbered_fault(
            notes,
            b"redis-core: file refused: L",
            kind.number(),
            at,
        ),
        Ending::Memory => put_all(notes, b"redis-core: out of memory\n"),
        Ending::Limit => put_all(notes, b"redis-core: input limit reached\n"),
    }
}

/// Writes the line of an ending to the notes: none for status 0. A fault of the notes changes nothing else.
pub fn note<N: Sink>(notes: &mut N, ending: Ending)
    ensures { Notes (N.seen notes.old) (N.seen notes.new) (line_of ending) }
{
    match put_line(notes, ending) {
        Ok(()) => {}
        Err(_) => {}
    }
}
