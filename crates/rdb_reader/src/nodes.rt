//! Lists of a file, node by node.

ghost use Rattle.std.specs.Prelude.{◌≡◌, ◌≤◌, ◌∷◌, ◌++◌, ℕ, [], length, IfOk, IfErr, OnOk};
ghost use Rattle.blocks.specs.Blocks.{Changes, Served};
ghost use Rattle.listpack.specs.View.{list_of};
ghost use Rattle.object_codec.specs.Forms.{IsLeast, FitsList};
ghost use Rattle.object_codec.specs.declared.limits.Limits.{Limits};
ghost use Rattle.plain_world.specs.Worlds.{ListOf};
ghost use Rattle.quicklist.specs.Chain as chain;
ghost use Rattle.quicklist.specs.Nodes.{pack_len};
ghost use Rattle.keyspace.specs.Values.{value_of, value_refs, IsSound};
ghost use Rattle.rdb_grammar.specs.declared.values.Collection.TheVariants as of;
ghost use Rattle.rdb_grammar.specs.Format.{in_turn, inside};
ghost use Rattle.rdb_grammar.specs.Layouts.{with_node};
ghost use Rattle.rdb_grammar.specs.Payloads.{all_in, with_text, texts_on};
ghost use Rattle.rdb_grammar.specs.Strings.{string};
ghost use Rattle.rdb_reader.specs.Building.{Makes, Reads};
ghost use Rattle.rdb_reader.specs.Forms.{IsNew, IsOf};

use crate::building::{push_element, refused};
use crate::fault::LoadFault;
use crate::payloads::no_payload;
use blocks::BlockStore;
use itoa::Buffer;
use keyspace::Value;
use listpack::Pack;
use pack_pairs::text as element_text;
use quicklist::Quick;
use rdb_grammar::{Container, LoadKind, next_container, next_string, text};

// Puts a text behind the elements of a list.
#[tactic(auto, using(keyspace::proofs::Serving::nothing, keyspace::proofs::Serving::both))]
fn push<B: BlockStore>(list: &mut Quick, store: &mut B, text: &[u8]) -> Result<(), LoadFault>
    requires { chain.IsQuick (B.blocks store.old) list.old }
    ensures pushed { OnOk result (chain.elements (B.blocks store.new) list.new ≡ chain.elements (B.blocks store.old) list.old ++ text.now ∷ []) }
    ensures memory { IfErr result (λ fault. fault ≡ LoadFault.Memory) }
    ensures sound { chain.IsQuick (B.blocks store.new) list.new }
    ensures form { OnOk result
        (IsLeast (FitsList (pack_len (chain.elements (B.blocks store.old) list.old))) list.old.form
        → IsLeast (FitsList (pack_len (chain.elements (B.blocks store.new) list.new))) list.new.form) }
    ensures changes { Changes (B.blocks store.old) (B.blocks store.new) (chain.refs list.old) (chain.refs list.new) }
    ensures served { Served B.step store.old store.new }
{
    let index = list.len();
    match list.insert(store, index, text) {
        Ok(()) => Ok(()),
        Err(_) => Err(LoadFault::Memory),
    }
}

// Puts the elements of a listpack, the payload at an offset, behind those of a list.
#[tactic(auto, using(keyspace::proofs::Serving::nothing, keyspace::proofs::Serving::both))]
fn push_texts<B: BlockStore>(
    list: &mut Quick,
    store: &mut B,
    pack: &Pack<'_>,
    at: usize,
) -> Result<(), LoadFault>
    requires { chain.IsQuick (B.blocks store.old) list.old }
    ensures makes { Makes (all_in with_text (ListOf (chain.elements (B.blocks store.old) list.old)) (list_of pack.now)) at (ListOf (chain.elements (B.blocks store.new) list.new)) result }
    ensures sound { chain.IsQuick (B.blocks store.new) list.new }
    ensures form { OnOk result
        (IsLeast (FitsList (pack_len (chain.elements (B.blocks store.old) list.old))) list.old.form
        → IsLeast (FitsList (pack_len (chain.elements (B.blocks store.new) list.new))) list.new.form) }
    ensures changes { Changes (B.blocks store.old) (B.blocks store.new) (chain.refs list.old) (chain.refs list.new) }
    ensures served { Served B.step store.old store.new }
{
    let mut next = pack.first();
    for _ in 0..pack.len() {
        match next {
            Some(place) => {
                let mut buffer = Buffer::new();
                match push(list, store, element_text(pack.get(place), &mut buffer)) {
                    Ok(()) => next = pack.next(place),
                    Err(fault) => return Err(fault),
                }
            }
            None => unreachable!(),
        }
    }
    Ok(())
}

// Puts the elements of a listpack, the payload at an offset, behind those of a list: as one node where the list takes it whole.
#[tactic(auto, using(keyspace::proofs::Serving::nothing, keyspace::proofs::Serving::both))]
fn take_texts<B: BlockStore>(
    list: &mut Quick,
    store: &mut B,
    pack: &Pack<'_>,
    at: usize,
) -> Result<(), LoadFault>
    requires { chain.IsQuick (B.blocks store.old) list.old }
    ensures makes { Makes (all_in with_text (ListOf (chain.elements (B.blocks store.old) list.old)) (list_of pack.now)) at (ListOf (chain.elements (B.blocks store.new) list.new)) result }
    ensures sound { chain.IsQuick (B.blocks store.new) list.new }
    ensures form { OnOk result
        (IsLeast (FitsList (pack_len (chain.elements (B.blocks store.old) list.old))) list.old.form
        → IsLeast (FitsList (pack_len (chain.elements (B.blocks store.new) list.new))) list.new.form) }
    ensures changes { Changes (B.blocks store.old) (B.blocks store.new) (chain.refs list.old) (chain.refs list.new) }
    ensures served { Served B.step store.old store.new }
{
    match list.take_pack(store, pack) {
        Ok(true) => Ok(()),
        Ok(false) => push_texts(list, store, pack, at),
        Err(_) => Err(LoadFault::Memory),
    }
}

// Puts the elements that are packed in the payload at an offset behind those of a list.
#[tactic(auto, using(keyspace::proofs::Serving::nothing, keyspace::proofs::Serving::both))]
fn unpack_texts<B: BlockStore>(
    list: &mut Quick,
    store: &mut B,
    payload: &[u8],
    at: usize,
) -> Result<(), LoadFault>
    requires { chain.IsQuick (B.blocks store.old) list.old }
    ensures makes { Makes ((texts_on (ListOf (chain.elements (B.blocks store.old) list.old))).found payload.now) at (ListOf (chain.elements (B.blocks store.new) list.new)) result }
    ensures sound { chain.IsQuick (B.blocks store.new) list.new }
    ensures form { OnOk result
        (IsLeast (FitsList (pack_len (chain.elements (B.blocks store.old) list.old))) list.old.form
        → IsLeast (FitsList (pack_len (chain.elements (B.blocks store.new) list.new))) list.new.form) }
    ensures changes { Changes (B.blocks store.old) (B.blocks store.new) (chain.refs list.old) (chain.refs list.new) }
    ensures served { Served B.step store.old store.new }
{
    match listpack::check(payload) {
        Ok(pack) => take_texts(list, store, &pack, at),
        Err(_) => Err(no_payload(LoadKind::Listpack, at)),
    }
}

// Reads the string at an offset, in which elements of a list are packed. The offset behind it is answered.
#[tactic(auto, using(keyspace::proofs::Serving::nothing, keyspace::proofs::Serving::both))]
fn read_elements<B: BlockStore>(
    list: &mut Quick,
    store: &mut B,
    bytes: &[u8],
    at: usize,
) -> Result<usize, LoadFault>
    requires sound { chain.IsQuick (B.blocks store.old) list.old }
    requires at { at ≤ length bytes.now }
    ensures fills { Reads (inside string (texts_on (ListOf (chain.elements (B.blocks store.old) list.old)))) bytes.now at (ListOf (chain.elements (B.blocks store.new) list.new)) result }
    ensures sound { chain.IsQuick (B.blocks store.new) list.new }
    ensures form { IfOk result
        (λ next. IsLeast (FitsList (pack_len (chain.elements (B.blocks store.old) list.old))) list.old.form
        → IsLeast (FitsList (pack_len (chain.elements (B.blocks store.new) list.new))) list.new.form) }
    ensures changes { Changes (B.blocks store.old) (B.blocks store.new) (chain.refs list.old) (chain.refs list.new) }
    ensures served { Served B.step store.old store.new }
{
    let (payload, next) = match next_string(bytes, at) {
        Ok(read) => read,
        Err(fault) => return Err(refused(fault)),
    };
    let mut buffer = Buffer::new();
    match unpack_texts(list, store, text(&payload, &mut buffer), at) {
        Ok(()) => Ok(next),
        Err(fault) => Err(fault),
    }
}

// Reads the node at an offset: its container, and its string. The offset behind it is answered.
#[tactic(auto, using(keyspace::proofs::Serving::nothing, keyspace::proofs::Serving::both))]
fn read_node<B: BlockStore>(
    list: &mut Quick,
    store: &mut B,
    bytes: &[u8],
    at: usize,
) -> Result<usize, LoadFault>
    requires sound { chain.IsQuick (B.blocks store.old) list.old }
    requires at { at ≤ length bytes.now }
    ensures adds { Reads (with_node (ListOf (chain.elements (B.blocks store.old) list.old))) bytes.now at (ListOf (chain.elements (B.blocks store.new) list.new)) result }
    ensures sound { chain.IsQuick (B.blocks store.new) list.new }
    ensures form { IfOk result
        (λ next. IsLeast (FitsList (pack_len (chain.elements (B.blocks store.old) list.old))) list.old.form
        → IsLeast (FitsList (pack_len (chain.elements (B.blocks store.new) list.new))) list.new.form) }
    ensures changes { Changes (B.blocks store.old) (B.blocks store.new) (chain.refs list.old) (chain.refs list.new) }
    ensures served { Served B.step store.old store.new }
{
    match next_container(bytes, at) {
        Ok((container, next)) => match container {
            Container::Plain => push_element(list, store, bytes, next),
            Container::Packed => read_elements(list, store, bytes, next),
        },
        Err(fault) => Err(refused(fault)),
    }
}

// Reads the nodes at an offset, so many of them.
#[tactic(auto, using(keyspace::proofs::Serving::nothing, keyspace::proofs::Serving::both))]
fn read_list<B: BlockStore>(
    list: &mut Quick,
    store: &mut B,
    bytes: &[u8],
    at: usize,
    count: u64,
) -> Result<usize, LoadFault>
    requires sound { chain.IsQuick (B.blocks store.old) list.old }
    requires at { at ≤ length bytes.now }
    ensures fills { Reads (in_turn with_node count (ListOf (chain.elements (B.blocks store.old) list.old))) bytes.now at (ListOf (chain.elements (B.blocks store.new) list.new)) result }
    ensures sound { chain.IsQuick (B.blocks store.new) list.new }
    ensures form { IfOk result
        (λ next. IsLeast (FitsList (pack_len (chain.elements (B.blocks store.old) list.old))) list.old.form
        → IsLeast (FitsList (pack_len (chain.elements (B.blocks store.new) list.new))) list.new.form) }
    ensures changes { Changes (B.blocks store.old) (B.blocks store.new) (chain.refs list.old) (chain.refs list.new) }
    ensures served { Served B.step store.old store.new }
{
    let mut next = at;
    'nodes: for _ in 0..count {
        match read_node(list, store, bytes, next) {
            Ok(behind) => next = behind,
            Err(fault) => return Err(fault),
        }
    }
    Ok(next)
}

/// Reads the nodes of a list at an offset, so many of them. The offset behind them is answered.
#[tactic(auto, using(keyspace::proofs::Serving::nothing, keyspace::proofs::Serving::both))]
pub(crate) fn read_nodes<B: BlockStore>(
    value: &mut Value,
    store: &mut B,
    bytes: &[u8],
    at: usize,
    count: u64,
) -> Result<usize, LoadFault>
    requires sound { (limits : Limits) × (seed : ℕ) × IsSound limits seed (B.blocks store.old) value.old }
    requires kind { IsOf of.List value.old }
    requires at { at ≤ length bytes.now }
    ensures fills { Reads (in_turn with_node count (value_of (B.blocks store.old) value.old)) bytes.now at (value_of (B.blocks store.new) value.new) result }
    ensures sound { (limits : Limits) (seed : ℕ) → IsSound limits seed (B.blocks store.old) value.old → IsSound limits seed (B.blocks store.new) value.new }
    ensures form { IfOk result
        (λ next. (limits : Limits) (seed : ℕ) → IsSound limits seed (B.blocks store.old) value.old → IsNew limits (B.blocks store.old) value.old
        → IsNew limits (B.blocks store.new) value.new) }
    ensures changes { Changes (B.blocks store.old) (B.blocks store.new) (value_refs (B.blocks store.old) value.old) (value_refs (B.blocks store.new) value.new) }
    ensures served { Served B.step store.old store.new }
{
    match value {
        Value::Text(_) | Value::Stream(_) | Value::Set(_) | Value::Hash(_) | Value::Zset(_) => {
            unreachable!()
        }
        Value::List(list) => read_list(list, store, bytes, at, count),
    }
}
