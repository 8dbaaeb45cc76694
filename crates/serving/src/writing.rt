//! Replies are written. What is small is gathered, and put when it is much.

ghost use Rattle.std.specs.Prelude.{◌≡◌};
ghost use Rattle.plain_world.specs.Spelling.{part_bytes, spelling};
ghost use Rattle.serving.specs.Output.{pending_bytes, Gathers, Writes, WritesReply};

use crate::pending::{CAPACITY, Pending, flush};
use crate::short::gather_short;
use outside::{Sink, WriteFault};
use plain_world::{Part, Reply};
use resp_frames::put_part;

// Whether a part has so many bytes that it is not gathered.
fn is_large(part: &Part) -> bool {
    match part {
        Part::Bulk(bytes) => bytes.as_slice().len() >= CAPACITY,
        _ => false,
    }
}

// Lets a part that is no short string be pending behind the others, and says whether it fitted; where it didn't, nothing
// changes.
fn gather_long(part: &Part, pending: &mut Pending) -> bool
    ensures { Gathers (pending_bytes pending.old) (pending_bytes pending.new) (part_bytes part.now) result }
{
    if is_large(part) {
        return false;
    }
    let whole = pending.len;
    match put_part(pending, part) {
        Ok(()) => true,
        Err(_) => {
            pending.keep(whole);
            false
        }
    }
}

// The same of any part, at once where it is a short string that fits.
fn gather(part: &Part, pending: &mut Pending) -> bool
    ensures { Gathers (pending_bytes pending.old) (pending_bytes pending.new) (part_bytes part.now) result }
{
    if gather_short(part, pending) {
        return true;
    }
    gather_long(part, pending)
}

// Lets a reply be pending behind the others, and says whether it fitted; where it didn't, nothing changes.
fn gather_reply(reply: &Reply, pending: &mut Pending) -> bool
    ensures { Gathers (pending_bytes pending.old) (pending_bytes pending.new) (spelling reply.now) result }
{
    let whole = pending.len;
    for part in reply.parts() {
        if !gather(part, pending) {
            pending.keep(whole);
            return false;
        }
    }
    true
}

// Writes a part of a reply behind what is pending, or lets it be pending too.
fn write_part<O: Sink>(part: &Part, pending: &mut Pending, output: &mut O) -> Result<(), WriteFault>
    ensures { Writes (O.seen output.old) (O.seen output.new) (pending_bytes pending.old) (pending_bytes pending.new) (part_bytes part.now) result }
{
    if gather(part, pending) {
        return Ok(());
    }
    match flush(pending, output) {
        Ok(()) => {}
        Err(fault) => return Err(fault),
    }
    if gather(part, pending) {
        return Ok(());
    }
    put_part(output, part)
}

/// Writes the parts of a reply one by one, behind what is pending. The end of the reply may be pending. It takes no memory.
pub fn write_parts<O: Sink>(
    reply: &Reply,
    pending: &mut Pending,
    output: &mut O,
) -> Result<(), WriteFault>
    ensures { Writes (O.seen output.old) (O.seen output.new) (pending_bytes pending.old) (pending_bytes pending.new) (spelling reply.now) result }
{
    for part in reply.parts() {
        match write_part(part, pending, output) {
            Ok(()) => {}
            Err(fault) => return Err(fault),
        }
    }
    Ok(())
}

/// Writes a reply behind what is pending, or lets it be pending too, or alone. It takes no memory.
///
/// A reply is pending as a whole or written as a whole, so that what is written ends with one even where what is pending is
/// never put.
#[inline(never)]
pub fn write_reply<O: Sink>(
    reply: &Reply,
    pending: &mut Pending,
    output: &mut O,
) -> Result<(), WriteFault>
    ensures { WritesReply (O.seen output.old) (O.seen output.new) (pending_bytes pending.old) (pending_bytes pending.new) (spelling reply.now) result }
{
    if gather_reply(reply, pending) {
        return Ok(());
    }
    match flush(pending, output) {
        Ok(()) => {}
        Err(fault) => return Err(fault),
    }
    if gather_reply(reply, pending) {
        return Ok(());
    }
    match write_parts(reply, pending, output) {
        Ok(()) => flush(pending, output),
        Err(fault) => Err(fault),
    }
}
