//! Collections that are packed in a string of a file.

ghost use Rattle.std.specs.Prelude.{◌≡◌, ◌≤◌, ℕ, map, length, IfOk, OnOk};
ghost use Rattle.blocks.specs.Blocks.{Changes, Served};
ghost use Rattle.int_text.specs.Decimal.{canonical};
ghost use Rattle.listpack.specs.View.{list_of};
ghost use Rattle.object_codec.specs.Forms.{IsLeast};
ghost use Rattle.object_codec.specs.declared.limits.Limits.{Limits};
ghost use Rattle.plain_world.specs.Worlds.{SetOf};
ghost use Rattle.set_object.specs.Members as set;
ghost use Rattle.set_object.specs.Strings.{FitsMembers};
ghost use Rattle.keyspace.specs.Values.{value_of, value_refs, IsSound};
ghost use Rattle.rdb_grammar.specs.Layouts.{held};
ghost use Rattle.rdb_grammar.specs.Payloads.{all_in, with_text};
ghost use Rattle.rdb_grammar.specs.Format.{inside};
ghost use Rattle.rdb_grammar.specs.Strings.{string};
ghost use Rattle.rdb_reader.specs.Building.{Makes, Reads};
ghost use Rattle.rdb_reader.specs.Forms.{IsNew, HasMembers, Suits};

use crate::building::{refused, twice};
use crate::fault::LoadFault;
use crate::pairs::{read_fields, read_scored};
use blocks::BlockStore;
use intset::Ints;
use itoa::Buffer;
use keyspace::Value;
use listpack::Pack;
use pack_pairs::text as element_text;
use rdb_grammar::{Chunk, LoadKind, Packed, next_string, text};
use set_object::Members;

// The payload of the string at an offset is refused.
pub(crate) fn no_payload(kind: LoadKind, at: usize) -> LoadFault
    ensures { result ≡ LoadFault.Refused kind at }
{
    LoadFault::Refused {
        kind,
        at: at as u64,
    }
}

// Puts a text of the payload at an offset among the members of a set.
#[tactic(auto, using(keyspace::proofs::Serving::nothing, keyspace::proofs::Serving::both))]
fn join<B: BlockStore>(
    members: &mut Members,
    store: &mut B,
    text: &[u8],
    at: usize,
) -> Result<(), LoadFault>
    requires { set.IsMembers (B.blocks store.old) members.old }
    ensures makes { Makes (with_text (SetOf (set.members (B.blocks store.old) members.old)) text.now) at (SetOf (set.members (B.blocks store.new) members.new)) result }
    ensures sound { set.IsMembers (B.blocks store.new) members.new }
    ensures settings { set.KeepsSettings members.old members.new }
    ensures form { OnOk result
        (IsLeast (FitsMembers members.old.limits (set.members (B.blocks store.old) members.old)) (set.form_of members.old)
        → IsLeast (FitsMembers members.old.limits (set.members (B.blocks store.new) members.new)) (set.form_of members.new)) }
    ensures changes { Changes (B.blocks store.old) (B.blocks store.new) (set.refs members.old) (set.refs members.new) }
    ensures served { Served B.step store.old store.new }
{
    match members.add(store, text) {
        Ok(true) => Ok(()),
        Ok(false) => Err(twice(at)),
        Err(_) => Err(LoadFault::Memory),
    }
}

// Puts the numbers of an intset, the payload at an offset, among the members of a set.
#[tactic(auto, using(keyspace::proofs::Serving::nothing, keyspace::proofs::Serving::both))]
fn join_numbers<B: BlockStore>(
    members: &mut Members,
    store: &mut B,
    numbers: &Ints<'_>,
    at: usize,
) -> Result<(), LoadFault>
    requires { set.IsMembers (B.blocks store.old) members.old }
    ensures makes { Makes (all_in with_text (SetOf (set.members (B.blocks store.old) members.old)) (map canonical numbers.now)) at (SetOf (set.members (B.blocks store.new) members.new)) result }
    ensures sound { set.IsMembers (B.blocks store.new) members.new }
    ensures settings { set.KeepsSettings members.old members.new }
    ensures form { OnOk result
        (IsLeast (FitsMembers members.old.limits (set.members (B.blocks store.old) members.old)) (set.form_of members.old)
        → IsLeast (FitsMembers members.old.limits (set.members (B.blocks store.new) members.new)) (set.form_of members.new)) }
    ensures changes { Changes (B.blocks store.old) (B.blocks store.new) (set.refs members.old) (set.refs members.new) }
    ensures served { Served B.step store.old store.new }
{
    for index in 0..numbers.len() {
        match numbers.at(index) {
            Some(number) => {
                let mut buffer = Buffer::new();
                match join(
                    members,
                    store,
                    text(&Chunk::Number(number), &mut buffer),
                    at,
                ) {
                    Ok(()) => {}
                    Err(fault) => return Err(fault),
                }
            }
            None => unreachable!(),
        }
    }
    Ok(())
}

// Puts the elements of a listpack, the payload at an offset, among the members of a set.
#[tactic(auto, using(keyspace::proofs::Serving::nothing, keyspace::proofs::Serving::both))]
fn join_texts<B: BlockStore>(
    members: &mut Members,
    store: &mut B,
    pack: &Pack<'_>,
    at: usize,
) -> Result<(), LoadFault>
    requires { set.IsMembers (B.blocks store.old) members.old }
    ensures makes { Makes (all_in with_text (SetOf (set.members (B.blocks store.old) members.old)) (list_of pack.now)) at (SetOf (set.members (B.blocks store.new) members.new)) result }
    ensures sound { set.IsMembers (B.blocks store.new) members.new }
    ensures settings { set.KeepsSettings members.old members.new }
    ensures form { OnOk result
        (IsLeast (FitsMembers members.old.limits (set.members (B.blocks store.old) members.old)) (set.form_of members.old)
        → IsLeast (FitsMembers members.old.limits (set.members (B.blocks store.new) members.new)) (set.form_of members.new)) }
    ensures changes { Changes (B.blocks store.old) (B.blocks store.new) (set.refs members.old) (set.refs members.new) }
    ensures served { Served B.step store.old store.new }
{
    let mut next = pack.first();
    for _ in 0..pack.len() {
        match next {
            Some(place) => {
                let mut buffer = Buffer::new();
                match join(
                    members,
                    store,
                    element_text(pack.get(place), &mut buffer),
                    at,
                ) {
                    Ok(()) => next = pack.next(place),
                    Err(fault) => return Err(fault),
                }
            }
            None => unreachable!(),
        }
    }
    Ok(())
}

// Puts what is packed in the payload at an offset among the members of a set.
#[tactic(auto, using(keyspace::proofs::Serving::nothing, keyspace::proofs::Serving::both))]
fn unpack<B: BlockStore>(
    members: &mut Members,
    store: &mut B,
    payload: &[u8],
    at: usize,
    packed: Packed,
) -> Result<(), LoadFault>
    requires sound { set.IsMembers (B.blocks store.old) members.old }
    requires members { HasMembers packed }
    ensures makes { Makes ((held packed (SetOf (set.members (B.blocks store.old) members.old))).found payload.now) at (SetOf (set.members (B.blocks store.new) members.new)) result }
    ensures sound { set.IsMembers (B.blocks store.new) members.new }
    ensures settings { set.KeepsSettings members.old members.new }
    ensures form { OnOk result
        (IsLeast (FitsMembers members.old.limits (set.members (B.blocks store.old) members.old)) (set.form_of members.old)
        → IsLeast (FitsMembers members.old.limits (set.members (B.blocks store.new) members.new)) (set.form_of members.new)) }
    ensures changes { Changes (B.blocks store.old) (B.blocks store.new) (set.refs members.old) (set.refs members.new) }
    ensures served { Served B.step store.old store.new }
{
    match packed {
        Packed::Numbers => match intset::check(payload) {
            Ok(numbers) => join_numbers(members, store, &numbers, at),
            Err(_) => Err(no_payload(LoadKind::Intset, at)),
        },
        Packed::Texts => match listpack::check(payload) {
            Ok(pack) => join_texts(members, store, &pack, at),
            Err(_) => Err(no_payload(LoadKind::Listpack, at)),
        },
        Packed::Pairs | Packed::Scores => unreachable!(),
    }
}

// Reads the string at an offset, in which members of a set are packed. The offset behind it is answered.
#[tactic(auto, using(keyspace::proofs::Serving::nothing, keyspace::proofs::Serving::both))]
fn read_members<B: BlockStore>(
    members: &mut Members,
    store: &mut B,
    bytes: &[u8],
    at: usize,
    packed: Packed,
) -> Result<usize, LoadFault>
    requires sound { set.IsMembers (B.blocks store.old) members.old }
    requires members { HasMembers packed }
    requires at { at ≤ length bytes.now }
    ensures fills { Reads (inside string (held packed (SetOf (set.members (B.blocks store.old) members.old)))) bytes.now at (SetOf (set.members (B.blocks store.new) members.new)) result }
    ensures sound { set.IsMembers (B.blocks store.new) members.new }
    ensures settings { set.KeepsSettings members.old members.new }
    ensures form { IfOk result
        (λ next. IsLeast (FitsMembers members.old.limits (set.members (B.blocks store.old) members.old)) (set.form_of members.old)
        → IsLeast (FitsMembers members.old.limits (set.members (B.blocks store.new) members.new)) (set.form_of members.new)) }
    ensures changes { Changes (B.blocks store.old) (B.blocks store.new) (set.refs members.old) (set.refs members.new) }
    ensures served { Served B.step store.old store.new }
{
    let (payload, next) = match next_string(bytes, at) {
        Ok(read) => read,
        Err(fault) => return Err(refused(fault)),
    };
    let mut buffer = Buffer::new();
    match unpack(members, store, text(&payload, &mut buffer), at, packed) {
        Ok(()) => Ok(next),
        Err(fault) => Err(fault),
    }
}

/// Reads the string at an offset, in which members of a set are packed, into one. The offset behind it is answered.
#[tactic(auto, using(keyspace::proofs::Serving::nothing, keyspace::proofs::Serving::both))]
pub(crate) fn read_payload<B: BlockStore>(
    value: &mut Value,
    store: &mut B,
    bytes: &[u8],
    at: usize,
    packed: Packed,
) -> Result<usize, LoadFault>
    requires sound { (limits : Limits) × (seed : ℕ) × IsSound limits seed (B.blocks store.old) value.old }
    requires suits { Suits value.old packed }
    requires at { at ≤ length bytes.now }
    ensures fills { Reads (inside string (held packed (value_of (B.blocks store.old) value.old))) bytes.now at (value_of (B.blocks store.new) value.new) result }
    ensures sound { (limits : Limits) (seed : ℕ) → IsSound limits seed (B.blocks store.old) value.old → IsSound limits seed (B.blocks store.new) value.new }
    ensures form { IfOk result
        (λ next. (limits : Limits) (seed : ℕ) → IsSound limits seed (B.blocks store.old) value.old → IsNew limits (B.blocks store.old) value.old
        → IsNew limits (B.blocks store.new) value.new) }
    ensures changes { Changes (B.blocks store.old) (B.blocks store.new) (value_refs (B.blocks store.old) value.old) (value_refs (B.blocks store.new) value.new) }
    ensures served { Served B.step store.old store.new }
{
    match value {
        Value::Text(_) | Value::Stream(_) | Value::List(_) => unreachable!(),
        Value::Set(members) => read_members(members, store, bytes, at, packed),
        Value::Hash(fields) => read_fields(fields, store, bytes, at),
        Value::Zset(scored) => read_scored(scored, store, bytes, at),
    }
}
