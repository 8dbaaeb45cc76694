//! Collections as they are laid out behind their keys.

ghost use Rattle.std.specs.Prelude.{◌≡◌, ◌≤◌, ℕ, length, IfOk};
ghost use Rattle.blocks.specs.Blocks.{Changes, Owned, Served};
ghost use Rattle.object_codec.specs.declared.limits.Limits.{Limits};
ghost use Rattle.keyspace.specs.Values.{value_of, value_refs, IsSound};
ghost use Rattle.rdb_grammar.specs.Elements.{without_any};
ghost use Rattle.rdb_grammar.specs.Layouts.{started};
ghost use Rattle.rdb_reader.specs.Building.{FillsLaid};
ghost use Rattle.rdb_reader.specs.Forms.{IsNew, IsOf};

use crate::building::fill;
use crate::fault::LoadFault;
use crate::nodes::read_nodes;
use crate::payloads::read_payload;
use crate::streams::read_whole;
use blocks::BlockStore;
use keyspace::Value;
use rdb_grammar::{Collection, Layout, Packed};
use std::alloc::Global;

/// What is laid out.
pub(crate) fn kind_of(layout: Layout) -> Collection
    ensures { result ≡ started layout }
{
    match layout {
        Layout::Elements(collection, _) => collection,
        Layout::Packed(Packed::Numbers) | Layout::Packed(Packed::Texts) => Collection::Set,
        Layout::Packed(Packed::Pairs) => Collection::Hash,
        Layout::Packed(Packed::Scores) => Collection::SortedSet,
        Layout::Nodes(_) => Collection::List,
        Layout::Stream(_) => Collection::Stream,
    }
}

/// Reads what is laid out from an offset on into a collection of its kind without an element. The offset behind it is answered.
#[tactic(auto, using(keyspace::proofs::Serving::nothing, keyspace::proofs::Serving::both))]
pub(crate) fn read_laid<B: BlockStore>(
    alloc: Global,
    value: &mut Value,
    store: &mut B,
    bytes: &[u8],
    at: usize,
    layout: Layout,
) -> Result<usize, LoadFault>
    requires sound { (limits : Limits) × (seed : ℕ) × IsSound limits seed (B.blocks store.old) value.old }
    requires owned { Owned (value_refs (B.blocks store.old) value.old) (B.blocks store.old) }
    requires kind { IsOf (started layout) value.old }
    requires begun { value_of (B.blocks store.old) value.old ≡ without_any (started layout) }
    requires at { at ≤ length bytes.now }
    ensures fills { FillsLaid bytes.now at layout (value_of (B.blocks store.old) value.old) (value_of (B.blocks store.new) value.new) result }
    ensures sound { (limits : Limits) (seed : ℕ) → IsSound limits seed (B.blocks store.old) value.old → IsSound limits seed (B.blocks store.new) value.new }
    ensures form { IfOk result
        (λ next. (limits : Limits) (seed : ℕ) → IsSound limits seed (B.blocks store.old) value.old → IsNew limits (B.blocks store.old) value.old
        → IsNew limits (B.blocks store.new) value.new) }
    ensures changes { Changes (B.blocks store.old) (B.blocks store.new) (value_refs (B.blocks store.old) value.old) (value_refs (B.blocks store.new) value.new) }
    ensures served { Served B.step store.old store.new }
{
    match layout {
        Layout::Elements(_, count) => fill(value, store, bytes, at, count),
        Layout::Packed(packed) => read_payload(value, store, bytes, at, packed),
        Layout::Nodes(count) => read_nodes(value, store, bytes, at, count),
        Layout::Stream(stream_type) => read_whole(alloc, value, store, bytes, at, stream_type),
    }
}
