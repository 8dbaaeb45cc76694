//! The consumers of a group, each with the ids that are pending for it.

ghost use Rattle.std.specs.Prelude.{◌≡◌, ◌<◌, ◌^◌, None};
ghost use Rattle.std.specs.FinMap.{keys, len};
ghost use Rattle.stream_groups.specs.Groups.{own_ids};
ghost use Rattle.rdb_parts.specs.Pens.{Writes};
ghost use Rattle.rdb_stream_writer.specs.Ids.{id_word, counted_by};
ghost use Rattle.rdb_stream_writer.specs.Consumers.{moment_word, consumer_word};

use crate::ids::write_id;
use outside::{HostFault, Shelf};
use rdb_parts::{Pen, write_length, write_string};
use stream_groups::Group;

/// Writes a moment in milliseconds, its lowest byte first.
pub(crate) fn write_moment<F: Shelf>(
    shelf: &mut F,
    pen: &mut Pen,
    moment: u64,
) -> Result<(), HostFault>
    ensures writes { Writes (F.seen shelf.old) (F.seen shelf.new) pen.old pen.new (moment_word moment) result }
    ensures fits { moment < 2 ^ 64 }
{
    pen.write(shelf, &moment.to_le_bytes())
}

// Writes how many ids are pending for a consumer, and these by rising ids.
fn write_own<F: Shelf>(
    shelf: &mut F,
    pen: &mut Pen,
    group: &Group,
    consumer: &[u8],
) -> Result<(), HostFault>
    ensures { Writes (F.seen shelf.old) (F.seen shelf.new) pen.old pen.new (counted_by id_word (own_ids group.now.pending consumer.now None)) result }
{
    write_length(shelf, pen, group.own_len(consumer))?;
    let mut above = None;
    'ids: while let Some(id) = group.own_after(consumer, above) {
        write_id(shelf, pen, id)?;
        above = Some(id);
    }
    Ok(())
}

// Writes a consumer, which was seen and active at the moment, and what is pending for it.
fn write_consumer<F: Shelf>(
    shelf: &mut F,
    pen: &mut Pen,
    group: &Group,
    consumer: &[u8],
    moment: u64,
) -> Result<(), HostFault>
    ensures { Writes (F.seen shelf.old) (F.seen shelf.new) pen.old pen.new (consumer_word moment group.now.pending consumer.now) result }
{
    write_string(shelf, pen, consumer)?;
    write_moment(shelf, pen, moment)?;
    write_moment(shelf, pen, moment)?;
    write_own(shelf, pen, group, consumer)
}

/// Writes how many consumers a group has, and these by rising names.
pub(crate) fn write_consumers<F: Shelf>(
    shelf: &mut F,
    pen: &mut Pen,
    group: &Group,
    moment: u64,
) -> Result<(), HostFault>
    ensures writes { Writes (F.seen shelf.old) (F.seen shelf.new) pen.old pen.new (counted_by (consumer_word moment group.now.pending) (keys group.now.consumers)) result }
    ensures fits { len group.now.consumers < 2 ^ 64 }
{
    write_length(shelf, pen, group.consumers() as u64)?;
    let mut index = 0;
    'names: while let Some(name) = group.consumer_name(index) {
        write_consumer(shelf, pen, group, name, moment)?;
        index += 1;
    }
    Ok(())
}
