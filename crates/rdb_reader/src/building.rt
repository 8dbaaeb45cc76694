//! Collections of a file, built element by element.

ghost use Rattle.std.specs.Prelude.{◌≡◌, ◌≤◌, ℕ, [], length, IfOk};
ghost use Rattle.blocks.specs.Blocks.{Blocks, Changes, Owned, Served};
ghost use Rattle.object_codec.specs.Limits.{AreInRange};
ghost use Rattle.object_codec.specs.declared.limits.Limits.{Limits};
ghost use Rattle.plain_world.specs.Worlds.{ListOf, SetOf, HashOf, SortedOf};
ghost use Rattle.object_codec.specs.Forms.{IsLeast, FitsList};
ghost use Rattle.quicklist.specs.Nodes.{pack_len};
ghost use Rattle.set_object.specs.Strings.{FitsMembers};
ghost use Rattle.hash_object.specs.Maps.{FitsFields};
ghost use Rattle.zset_object.specs.Orders.{FitsScored};
ghost use Rattle.quicklist.specs.Chain as chain;
ghost use Rattle.set_object.specs.Members as set;
ghost use Rattle.hash_object.specs.Fields as hash;
ghost use Rattle.zset_object.specs.Scored as zset;
ghost use Rattle.keyspace.specs.Values.{value_of, value_refs, IsSound};
ghost use Rattle.rdb_grammar.specs.Elements.{without_any};
ghost use Rattle.rdb_reader.specs.Building.{Adds, Fills};
ghost use Rattle.rdb_reader.specs.Forms.{IsNew, IsOf};

use crate::fault::LoadFault;
use blocks::{BlockStore, Memory};
use hash_object::Fields;
use itoa::Buffer;
use keyspace::Value;
use object_codec::Limits;
use quicklist::Quick;
use rdb_grammar::{Collection, FileFault, LoadKind, next_score, next_string, text};
use set_object::Members;
use std::alloc::Global;
use stream_object::Stream;
use zset_object::Scored;

// The fault of a part.
pub(crate) fn refused(fault: FileFault) -> LoadFault
    ensures { result ≡ LoadFault.Refused fault.kind fault.at }
{
    LoadFault::Refused {
        kind: fault.kind,
        at: fault.at,
    }
}

// The member or field at an offset stands twice.
pub(crate) fn twice(at: usize) -> LoadFault
    ensures { result ≡ LoadFault.Refused LoadKind.DuplicateElement at }
{
    LoadFault::Refused {
        kind: LoadKind::DuplicateElement,
        at: at as u64,
    }
}

// Puts the next element behind those of a list.
#[tactic(auto, using(keyspace::proofs::Serving::nothing, keyspace::proofs::Serving::both))]
pub(crate) fn push_element<B: BlockStore>(
    list: &mut Quick,
    store: &mut B,
    bytes: &[u8],
    at: usize,
) -> Result<usize, LoadFault>
    requires sound { chain.IsQuick (B.blocks store.old) list.old }
    requires at { at ≤ length bytes.now }
    ensures adds { Adds bytes.now at (ListOf (chain.elements (B.blocks store.old) list.old)) (ListOf (chain.elements (B.blocks store.new) list.new)) result }
    ensures sound { chain.IsQuick (B.blocks store.new) list.new }
    ensures form { IfOk result
        (λ next. IsLeast (FitsList (pack_len (chain.elements (B.blocks store.old) list.old))) list.old.form
        → IsLeast (FitsList (pack_len (chain.elements (B.blocks store.new) list.new))) list.new.form) }
    ensures changes { Changes (B.blocks store.old) (B.blocks store.new) (chain.refs list.old) (chain.refs list.new) }
    ensures served { Served B.step store.old store.new }
{
    let (element, next) = match next_string(bytes, at) {
        Ok(read) => read,
        Err(fault) => return Err(refused(fault)),
    };
    let mut buffer = Buffer::new();
    let index = list.len();
    match list.insert(store, index, text(&element, &mut buffer)) {
        Ok(()) => Ok(next),
        Err(_) => Err(LoadFault::Memory),
    }
}

// Puts the next member into a set.
#[tactic(auto, using(keyspace::proofs::Serving::nothing, keyspace::proofs::Serving::both))]
fn add_member<B: BlockStore>(
    members: &mut Members,
    store: &mut B,
    bytes: &[u8],
    at: usize,
) -> Result<usize, LoadFault>
    requires sound { set.IsMembers (B.blocks store.old) members.old }
    requires at { at ≤ length bytes.now }
    ensures adds { Adds bytes.now at (SetOf (set.members (B.blocks store.old) members.old)) (SetOf (set.members (B.blocks store.new) members.new)) result }
    ensures sound { set.IsMembers (B.blocks store.new) members.new }
    ensures settings { set.KeepsSettings members.old members.new }
    ensures form { IfOk result
        (λ next. IsLeast (FitsMembers members.old.limits (set.members (B.blocks store.old) members.old)) (set.form_of members.old)
        → IsLeast (FitsMembers members.old.limits (set.members (B.blocks store.new) members.new)) (set.form_of members.new)) }
    ensures changes { Changes (B.blocks store.old) (B.blocks store.new) (set.refs members.old) (set.refs members.new) }
    ensures served { Served B.step store.old store.new }
{
    let (member, next) = match next_string(bytes, at) {
        Ok(read) => read,
        Err(fault) => return Err(refused(fault)),
    };
    let mut buffer = Buffer::new();
    match members.add(store, text(&member, &mut buffer)) {
        Ok(true) => Ok(next),
        Ok(false) => Err(twice(at)),
        Err(_) => Err(LoadFault::Memory),
    }
}

// Gives the next field of a hash its value. A field that was there comes before what is wrong with its value.
#[tactic(auto, using(keyspace::proofs::Serving::nothing, keyspace::proofs::Serving::both))]
fn set_field<B: BlockStore>(
    fields: &mut Fields,
    store: &mut B,
    bytes: &[u8],
    at: usize,
) -> Result<usize, LoadFault>
    requires sound { hash.IsFields (B.blocks store.old) fields.old }
    requires at { at ≤ length bytes.now }
    ensures adds { Adds bytes.now at (HashOf (hash.fields (B.blocks store.old) fields.old)) (HashOf (hash.fields (B.blocks store.new) fields.new)) result }
    ensures sound { hash.IsFields (B.blocks store.new) fields.new }
    ensures settings { hash.KeepsSettings fields.old fields.new }
    ensures form { IfOk result
        (λ next. IsLeast (FitsFields fields.old.limits (hash.fields (B.blocks store.old) fields.old)) (hash.form_of fields.old)
        → IsLeast (FitsFields fields.old.limits (hash.fields (B.blocks store.new) fields.new)) (hash.form_of fields.new)) }
    ensures changes { Changes (B.blocks store.old) (B.blocks store.new) (hash.refs fields.old) (hash.refs fields.new) }
    ensures served { Served B.step store.old store.new }
{
    let (field, middle) = match next_string(bytes, at) {
        Ok(read) => read,
        Err(fault) => return Err(refused(fault)),
    };
    let mut buffer = Buffer::new();
    let field = text(&field, &mut buffer);
    let (value, next) = match next_string(bytes, middle) {
        Ok(read) => read,
        Err(fault) => {
            return match fields.get(store, field) {
                Some(_) => Err(twice(at)),
                None => Err(refused(fault)),
            };
        }
    };
    let mut other = Buffer::new();
    match fields.set(store, field, text(&value, &mut other)) {
        Ok(true) => Ok(next),
        Ok(false) => Err(twice(at)),
        Err(_) => Err(LoadFault::Memory),
    }
}

// Gives the next member of a sorted set its score. A member that was there comes before what is wrong with its score.
#[tactic(auto, using(keyspace::proofs::Serving::nothing, keyspace::proofs::Serving::both))]
fn set_score<B: BlockStore>(
    scored: &mut Scored,
    store: &mut B,
    bytes: &[u8],
    at: usize,
) -> Result<usize, LoadFault>
    requires sound { zset.IsScored (B.blocks store.old) scored.old }
    requires at { at ≤ length bytes.now }
    ensures adds { Adds bytes.now at (SortedOf (zset.scores (B.blocks store.old) scored.old)) (SortedOf (zset.scores (B.blocks store.new) scored.new)) result }
    ensures sound { zset.IsScored (B.blocks store.new) scored.new }
    ensures settings { zset.KeepsSettings scored.old scored.new }
    ensures form { IfOk result
        (λ next. IsLeast (FitsScored scored.old.limits (zset.scores (B.blocks store.old) scored.old)) (zset.form_of scored.old)
        → IsLeast (FitsScored scored.old.limits (zset.scores (B.blocks store.new) scored.new)) (zset.form_of scored.new)) }
    ensures changes { Changes (B.blocks store.old) (B.blocks store.new) (zset.refs scored.old) (zset.refs scored.new) }
    ensures served { Served B.step store.old store.new }
{
    let (member, middle) = match next_string(bytes, at) {
        Ok(read) => read,
        Err(fault) => return Err(refused(fault)),
    };
    let mut buffer = Buffer::new();
    let member = text(&member, &mut buffer);
    let (score, next) = match next_score(bytes, middle) {
        Ok(read) => read,
        Err(fault) => {
            return match scored.score(store, member) {
                Some(_) => Err(twice(at)),
                None => Err(refused(fault)),
            };
        }
    };
    match scored.set(store, member, score) {
        Ok(true) => Ok(next),
        Ok(false) => Err(twice(at)),
        Err(_) => Err(LoadFault::Memory),
    }
}

// Puts the next element into a collection. No other value has elements.
#[tactic(auto, using(keyspace::proofs::Serving::nothing, keyspace::proofs::Serving::both))]
fn add_element<B: BlockStore>(
    value: &mut Value,
    store: &mut B,
    bytes: &[u8],
    at: usize,
) -> Result<usize, LoadFault>
    requires sound { (limits : Limits) × (seed : ℕ) × IsSound limits seed (B.blocks store.old) value.old }
    requires owned { Owned (value_refs (B.blocks store.old) value.old) (B.blocks store.old) }
    requires at { at ≤ length bytes.now }
    ensures adds { Adds bytes.now at (value_of (B.blocks store.old) value.old) (value_of (B.blocks store.new) value.new) result }
    ensures sound { (limits : Limits) (seed : ℕ) → IsSound limits seed (B.blocks store.old) value.old → IsSound limits seed (B.blocks store.new) value.new }
    ensures form { IfOk result
        (λ next. (limits : Limits) (seed : ℕ) → IsSound limits seed (B.blocks store.old) value.old → IsNew limits (B.blocks store.old) value.old
        → IsNew limits (B.blocks store.new) value.new) }
    ensures changes { Changes (B.blocks store.old) (B.blocks store.new) (value_refs (B.blocks store.old) value.old) (value_refs (B.blocks store.new) value.new) }
    ensures served { Served B.step store.old store.new }
{
    match value {
        Value::Text(_) => Ok(at),
        Value::Stream(_) => Ok(at),
        Value::List(list) => push_element(list, store, bytes, at),
        Value::Set(members) => add_member(members, store, bytes, at),
        Value::Hash(fields) => set_field(fields, store, bytes, at),
        Value::Zset(scored) => set_score(scored, store, bytes, at),
    }
}

// Puts the next elements into a collection, so many of them.
#[tactic(auto, using(keyspace::proofs::Serving::nothing, keyspace::proofs::Serving::both))]
pub(crate) fn fill<B: BlockStore>(
    value: &mut Value,
    store: &mut B,
    bytes: &[u8],
    at: usize,
    count: u64,
) -> Result<usize, LoadFault>
    requires sound { (limits : Limits) × (seed : ℕ) × IsSound limits seed (B.blocks store.old) value.old }
    requires owned { Owned (value_refs (B.blocks store.old) value.old) (B.blocks store.old) }
    requires at { at ≤ length bytes.now }
    ensures fills { Fills bytes.now at count (value_of (B.blocks store.old) value.old) (value_of (B.blocks store.new) value.new) result }
    ensures sound { (limits : Limits) (seed : ℕ) → IsSound limits seed (B.blocks store.old) value.old → IsSound limits seed (B.blocks store.new) value.new }
    ensures form { IfOk result
        (λ next. (limits : Limits) (seed : ℕ) → IsSound limits seed (B.blocks store.old) value.old → IsNew limits (B.blocks store.old) value.old
        → IsNew limits (B.blocks store.new) value.new) }
    ensures changes { Changes (B.blocks store.old) (B.blocks store.new) (value_refs (B.blocks store.old) value.old) (value_refs (B.blocks store.new) value.new) }
    ensures served { Served B.step store.old store.new }
{
    let mut next = at;
    'elements: for _ in 0..count {
        match add_element(value, store, bytes, next) {
            Ok(behind) => next = behind,
            Err(fault) => return Err(fault),
        }
    }
    Ok(next)
}

// A collection without an element, or a stream without one.
pub(crate) fn begin(
    alloc: Global,
    limits: Limits,
    seed: u64,
    collection: Collection,
) -> Result<Value, Memory>
    requires { AreInRange limits }
    ensures means { IfOk result (λ made. (m : Blocks) → value_of m made ≡ without_any collection) }
    ensures refs { IfOk result (λ made. (m : Blocks) → value_refs m made ≡ []) }
    ensures sound { IfOk result (λ made. (m : Blocks) → IsSound limits seed m made) }
    ensures kind { IfOk result (λ made. IsOf collection made) }
    ensures form { IfOk result (λ made. (m : Blocks) → IsNew limits m made) }
{
    match collection {
        Collection::List => Ok(Value::List(Box::new(alloc, Quick::new(alloc))?)),
        Collection::Set => Ok(Value::Set(Box::new(alloc, Members::new(alloc, limits, seed))?)),
        Collection::Hash => Ok(Value::Hash(Box::new(alloc, Fields::new(alloc, limits, seed))?)),
        Collection::SortedSet => Ok(Value::Zset(Box::new(
            alloc,
            Scored::new(alloc, limits, seed),
        )?)),
        Collection::Stream => Ok(Value::Stream(Box::new(alloc, Stream::new(alloc))?)),
    }
}
