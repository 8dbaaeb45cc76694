ghost use Rattle.keyspace.specs.Values.{value_refs, value_own};
ghost use Rattle.keyspace.specs.Values as values;

use crate::Value;
use blocks::{BlockStore, Moved};
use stored::Stored;
use string_object::Text;

impl Stored for Value {
    ghost refs_of = { value_refs };

    ghost marks = { values.value_marks };

    ghost tables = { values.value_tables };

    ghost Encoding = { values.Encoding };

    ghost encoding = { values.encoding_of };

    ghost value_of = { values.value_of };

    ghost IsSound = { values.IsSound };

    ghost vacant = { values.vacant };

    ghost marked = { values.value_marked };

    ghost reads_own = { value_own };

    ghost marks_own = { values.value_marks_own };

    ghost tables_own = { values.value_tables_own };

    ghost is_blank = { values.vacant_blank };

    // The string of the number 0.
    fn zero() -> Self {
        Value::Text(Text::Number(0))
    }

    fn release<B: BlockStore>(self, store: &mut B) {
        match self {
            Value::Text(text) => text.release(store),
            Value::List(list) => Box::into_inner(list).release(store),
            Value::Set(members) => Box::into_inner(members).release(store),
            Value::Hash(fields) => Box::into_inner(fields).release(store),
            Value::Zset(scored) => Box::into_inner(scored).release(store),
            Value::Stream(log) => Box::into_inner(log).release(store),
        }
    }

    fn relocate_part<B: BlockStore>(&mut self, store: &mut B, from: u128, room: u32) -> Moved {
        match self {
            Value::Text(text) => text.relocate_part(store, from, room),
            Value::List(list) => list.relocate_part(store, from, room),
            Value::Set(members) => members.relocate_part(store, from, room),
            Value::Hash(fields) => fields.relocate_part(store, from, room),
            Value::Zset(scored) => scored.relocate_part(store, from, room),
            Value::Stream(log) => log.relocate_part(store, from, room),
        }
    }

    fn units(&self) -> u32 {
        match self {
            Value::Text(text) => text.block_count(),
            Value::List(list) => list.nodes().min(u32::MAX as usize) as u32,
            Value::Set(members) => members.units(),
            Value::Hash(fields) => fields.units(),
            Value::Zset(scored) => scored.units(),
            Value::Stream(log) => log.units(),
        }
    }
}
