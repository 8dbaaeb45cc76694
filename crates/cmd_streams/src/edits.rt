//! What is done to a stream in its place.

ghost use Rattle.std.specs.Prelude.{OnOk};
ghost use Rattle.blocks.specs.Blocks.{Changes, Served};
ghost use Rattle.stream_object.specs.Streams.{IsStream, stream_of, refs};
ghost use Rattle.plain_world.specs.Streams as model;
ghost use Rattle.cmd_streams.specs.Changed.{IsStreamThat, Made, MakesStream};

use blocks::BlockStore;
use keyspace::{Edit, Value};
use plain_model::Memory;
use stream_object::Stream;

/// What is done to a stream. It may keep an answer.
pub trait StreamEdit: Drop {
    /// It may be done to this stream.
    ghost takes: { Self → model.Stream → Type 0 };

    /// What it makes of a stream.
    ghost makes: { Self → Self → Made };

    /// Changes a stream. After want of memory it is sound, and what it means is not said.
    fn edit_stream<B: BlockStore>(
        &mut self,
        stream: &mut Stream,
        store: &mut B,
    ) -> Result<(), Memory>
        requires sound { IsStream (B.blocks store.old) stream.old }
        requires takes { takes self.old (stream_of (B.blocks store.old) stream.old) }
        ensures sound { IsStream (B.blocks store.new) stream.new }
        ensures makes { OnOk result (makes self.old self.new (stream_of (B.blocks store.old) stream.old) (stream_of (B.blocks store.new) stream.new)) }
        ensures changes { Changes (B.blocks store.old) (B.blocks store.new) (refs (B.blocks store.old) stream.old) (refs (B.blocks store.new) stream.new) }
        ensures served { Served B.step store.old store.new };
}

/// What is done to a value that is a stream.
#[derive(Drop)]
pub struct OnStream<E> {
    pub edit: E,
}

impl<E: StreamEdit> Edit for OnStream<E> {
    ghost takes = { λ on value. IsStreamThat (E.takes on.edit) value };

    ghost makes = { λ first last old new. MakesStream (E.makes first.edit last.edit) old new };

    fn edit<B: BlockStore>(&mut self, value: &mut Value, store: &mut B) -> Result<(), Memory> {
        match value {
            Value::Text(_) | Value::List(_) | Value::Set(_) | Value::Hash(_) | Value::Zset(_) =>
                unreachable!(),
            Value::Stream(stream) => self.edit.edit_stream(stream, store),
        }
    }
}
