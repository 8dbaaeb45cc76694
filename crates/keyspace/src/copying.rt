// Values copied into blocks of their own.

ghost use Rattle.std.specs.Prelude.{◌≡◌, ℕ, [], IfOk, OnErr};
ghost use Rattle.blocks.specs.Blocks.{Changes, Owned, Served};
ghost use Rattle.object_codec.specs.Limits.{AreInRange};
ghost use Rattle.object_codec.specs.declared.limits.Limits.{Limits};
ghost use Rattle.rehash_dict.specs.Grown.{Grown};
ghost use Rattle.rehash_dict.specs.Keyed.{hash_of};
ghost use Rattle.stored.specs.Owning.{no_tables};
ghost use Rattle.keyspace.specs.Values.{value_of, value_refs, value_tables, IsSound, IsLike};

use crate::Value;
use blocks::{BlockStore, Memory};
use hash_object::Fields;
use object_codec::Limits;
use quicklist::Quick;
use set_object::Members;
use std::alloc::Global;
use stream_object::Stream;
use zset_object::Scored;

impl Value {
    /// Another value that means the same, with the same encoding, in blocks of its own; its tables come from none. `Memory` leaves all
    /// blocks.
    ///
    /// The box that a large value stands in is made before any of its blocks.
    pub fn copy<B: BlockStore>(
        &self,
        alloc: Global,
        limits: Limits,
        store: &mut B,
    ) -> Result<Value, Memory>
        requires limits { AreInRange limits }
        requires owned { Owned (value_refs (B.blocks store.old) self.now) (B.blocks store.old) }
        requires sound { (limits : Limits) × (seed : ℕ) × IsSound limits seed (B.blocks store.old) self.now }
        ensures sound { IfOk result (λ value. (limits : Limits) (seed : ℕ) → IsSound limits seed (B.blocks store.old) self.now → IsSound limits seed (B.blocks store.new) value) }
        ensures same { IfOk result (λ value. value_of (B.blocks store.new) value ≡ value_of (B.blocks store.old) self.now) }
        ensures encoding { IfOk result (λ value. IsLike self.now value) }
        ensures grown { IfOk result (λ value. (limits : Limits) (seed : ℕ) → IsSound limits seed (B.blocks store.old) self.now
            → Grown (hash_of seed) no_tables (value_tables (B.blocks store.new) value)) }
        ensures changes { IfOk result (λ value. Changes (B.blocks store.old) (B.blocks store.new) [] (value_refs (B.blocks store.new) value)) }
        ensures served { Served B.step store.old store.new }
        ensures err { OnErr result (B.blocks store.new ≡ B.blocks store.old) }
    {
        match self {
            Value::Text(text) => Ok(Value::Text(text.copy(store)?)),
            Value::List(list) => {
                let mut room = Box::new(alloc, Quick::new(alloc))?;
                *room = list.copy(store)?;
                Ok(Value::List(room))
            }
            Value::Set(members) => {
                let mut room = Box::new(alloc, Members::new(alloc, limits, 0))?;
                *room = members.copy(store)?;
                Ok(Value::Set(room))
            }
            Value::Hash(fields) => {
                let mut room = Box::new(alloc, Fields::new(alloc, limits, 0))?;
                *room = fields.copy(store)?;
                Ok(Value::Hash(room))
            }
            Value::Zset(scored) => {
                let mut room = Box::new(alloc, Scored::new(alloc, limits, 0))?;
                *room = scored.copy(store)?;
                Ok(Value::Zset(room))
            }
            Value::Stream(log) => {
                let mut room = Box::new(alloc, Stream::new(alloc))?;
                *room = log.copy(store)?;
                Ok(Value::Stream(room))
            }
        }
    }
}
