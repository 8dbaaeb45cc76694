//! Streams of a file.

ghost use Rattle.std.specs.Prelude.{◌≡◌, ◌≤◌, ℕ, length, IfOk};
ghost use Rattle.blocks.specs.Blocks.{Changes, Served};
ghost use Rattle.object_codec.specs.declared.limits.Limits.{Limits};
ghost use Rattle.keyspace.specs.Values.{value_of, value_refs, IsSound};
ghost use Rattle.rdb_grammar.specs.declared.values.Collection.TheVariants as of;
ghost use Rattle.rdb_grammar.specs.Elements.{without_any};
ghost use Rattle.rdb_grammar.specs.StreamParts.{stream as stream_format};
ghost use Rattle.rdb_reader.specs.Building.{Reads};
ghost use Rattle.rdb_reader.specs.Forms.{IsNew, IsOf};
ghost use Rattle.rdb_reader.specs.Loads.{load_fault};

use crate::fault::LoadFault;
use blocks::BlockStore;
use keyspace::Value;
use rdb_grammar::{ItemFault, StreamType};
use rdb_streams::read_stream;
use std::alloc::Global;

/// The fault of an item or of a stream.
pub(crate) fn not_read(fault: ItemFault) -> LoadFault
    ensures { result ≡ load_fault fault }
{
    match fault {
        ItemFault::Memory => LoadFault::Memory,
        ItemFault::Refused { kind, at } => LoadFault::Refused { kind, at },
    }
}

/// Reads a stream of a type from an offset on into a stream without an entry and a group. The offset behind it is answered.
#[tactic(auto, using(keyspace::proofs::Serving::nothing, keyspace::proofs::Serving::both))]
pub(crate) fn read_whole<B: BlockStore>(
    alloc: Global,
    value: &mut Value,
    store: &mut B,
    bytes: &[u8],
    at: usize,
    stream_type: StreamType,
) -> Result<usize, LoadFault>
    requires sound { (limits : Limits) × (seed : ℕ) × IsSound limits seed (B.blocks store.old) value.old }
    requires kind { IsOf of.Stream value.old }
    requires begun { value_of (B.blocks store.old) value.old ≡ without_any of.Stream }
    requires at { at ≤ length bytes.now }
    ensures fills { Reads (stream_format stream_type) bytes.now at (value_of (B.blocks store.new) value.new) result }
    ensures sound { (limits : Limits) (seed : ℕ) → IsSound limits seed (B.blocks store.old) value.old → IsSound limits seed (B.blocks store.new) value.new }
    ensures form { IfOk result
        (λ next. (limits : Limits) (seed : ℕ) → IsSound limits seed (B.blocks store.old) value.old → IsNew limits (B.blocks store.old) value.old
        → IsNew limits (B.blocks store.new) value.new) }
    ensures changes { Changes (B.blocks store.old) (B.blocks store.new) (value_refs (B.blocks store.old) value.old) (value_refs (B.blocks store.new) value.new) }
    ensures served { Served B.step store.old store.new }
{
    match value {
        Value::Text(_) | Value::List(_) | Value::Set(_) | Value::Hash(_) | Value::Zset(_) => {
            unreachable!()
        }
        Value::Stream(stream) => match read_stream(alloc, stream, store, bytes, at, stream_type) {
            Ok(next) => Ok(next),
            Err(fault) => Err(not_read(fault)),
        },
    }
}
