//! Units are written. What is small is gathered, and put when it is much.

ghost use Rattle.std.specs.Prelude.{◌≡◌, ◌++◌};
ghost use Rattle.byteorder.specs.Endian.{little_bytes};
ghost use Rattle.plain_world.specs.Spelling.{spelling};
ghost use Rattle.plain_sessions.specs.Units.{unit};
ghost use Rattle.resp_frames.specs.FaultLines.{fault_line};
ghost use Rattle.serving.specs.Output.{pending_bytes, Gathers, Writes};

use byteorder::{ByteOrder, LittleEndian};
use outside::{Sink, WriteFault};
use plain_world::Reply;
use resp_frames::{Rule, fault_len, put_all, put_fault, spelled_len};
use serving::{Pending, flush, write_parts};

// How long the head of a unit is: the number of its session in two bytes, and a length in eight, the lowest first.
const HEAD: usize = 10;

// The head of a unit.
fn head_of(session: u16, len: u64) -> [u8; HEAD]
    ensures { result ≡ little_bytes 2 session ++ little_bytes 8 len }
{
    let mut head = [0; HEAD];
    LittleEndian::write_u16(&mut head, session);
    LittleEndian::write_u64(&mut head[2..], len);
    head
}

// Lets bytes be pending behind the others, if they fit.
fn gather_bytes(bytes: &[u8], pending: &mut Pending) -> bool
    ensures { Gathers (pending_bytes pending.old) (pending_bytes pending.new) bytes.now result }
{
    if bytes.len() > pending.room.len() - pending.len {
        return false;
    }
    pending.append(bytes);
    true
}

// Writes bytes behind what is pending, or lets them be pending too.
fn write_bytes<O: Sink>(
    bytes: &[u8],
    pending: &mut Pending,
    output: &mut O,
) -> Result<(), WriteFault>
    ensures { Writes (O.seen output.old) (O.seen output.new) (pending_bytes pending.old) (pending_bytes pending.new) bytes.now result }
{
    if gather_bytes(bytes, pending) {
        return Ok(());
    }
    match flush(pending, output) {
        Ok(()) => {}
        Err(fault) => return Err(fault),
    }
    if gather_bytes(bytes, pending) {
        return Ok(());
    }
    put_all(output, bytes)
}

// Lets the line of a broken rule be pending behind the others, and says whether it fitted; where it didn't, nothing changes.
fn gather_line(rule: Rule, at: u64, pending: &mut Pending) -> bool
    ensures { Gathers (pending_bytes pending.old) (pending_bytes pending.new) (fault_line rule at) result }
{
    let whole = pending.len;
    match put_fault(pending, rule, at) {
        Ok(()) => true,
        Err(_) => {
            pending.keep(whole);
            false
        }
    }
}

// Writes the line of a broken rule behind what is pending, or lets it be pending too.
fn write_line<O: Sink>(
    rule: Rule,
    at: u64,
    pending: &mut Pending,
    output: &mut O,
) -> Result<(), WriteFault>
    ensures { Writes (O.seen output.old) (O.seen output.new) (pending_bytes pending.old) (pending_bytes pending.new) (fault_line rule at) result }
{
    if gather_line(rule, at, pending) {
        return Ok(());
    }
    match flush(pending, output) {
        Ok(()) => {}
        Err(fault) => return Err(fault),
    }
    if gather_line(rule, at, pending) {
        return Ok(());
    }
    put_fault(output, rule, at)
}

/// Writes the unit of a session's reply behind what is pending; the end of it may be pending too. It takes no memory.
pub fn write_unit<O: Sink>(
    session: u16,
    reply: &Reply,
    pending: &mut Pending,
    output: &mut O,
) -> Result<(), WriteFault>
    ensures { Writes (O.seen output.old) (O.seen output.new) (pending_bytes pending.old) (pending_bytes pending.new) (unit session (spelling reply.now)) result }
{
    let head = head_of(session, spelled_len(reply));
    match write_bytes(&head, pending, output) {
        Ok(()) => write_parts(reply, pending, output),
        Err(fault) => Err(fault),
    }
}

/// Writes the unit of a rule that a session broke, at this byte of its own.
pub fn write_fault<O: Sink>(
    session: u16,
    rule: Rule,
    at: u64,
    pending: &mut Pending,
    output: &mut O,
) -> Result<(), WriteFault>
    ensures { Writes (O.seen output.old) (O.seen output.new) (pending_bytes pending.old) (pending_bytes pending.new) (unit session (fault_line rule at)) result }
{
    let head = head_of(session, fault_len(rule, at) as u64);
    match write_bytes(&head, pending, output) {
        Ok(()) => write_line(rule, at, pending, output),
        Err(fault) => Err(fault),
    }
}
