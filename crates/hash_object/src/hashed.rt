// Fields and values that are blocks of their own, in a dictionary.

ghost use Rattle.std.specs.Prelude.{◌≡◌, ◌≢◌, [], IfOk, OnOk, OnErr, Ok, IsSome, not, true, false, length};
ghost use Rattle.std.specs.FinMap.{insert, remove, contains_key};
ghost use Rattle.blocks.specs.declared.BlockRef.{BlockRef};
ghost use Rattle.blocks.specs.Blocks.{bytes_at, Changes, Owned, Served};
ghost use Rattle.listpack.specs.Element.{element_text};
ghost use Rattle.pack_pairs.specs.Pairs.{IsPairPack, IsOnce, pairs, map_of_pairs};
ghost use Rattle.rehash_dict.specs.Table.{item};
ghost use Rattle.rehash_dict.specs.Steps.{Holds};
ghost use Rattle.rehash_dict.specs.Keyed.{Keyed, Lacks, key_of, key_tables};
ghost use Rattle.rehash_dict.specs.Tables.{IsSettled};
ghost use Rattle.hash_object.specs.Hashed.{IsHashed, fields_in, blocks_of, no_fields};

use crate::entries::{end_entry, place_entry};
use blocks::{BlockRef, BlockStore, Memory, put_block};
use itoa::Buffer;
use listpack::Element;
use pack_pairs::{first, first_place, next_place, second, text};
use rehash_dict::Dict;
use std::alloc::Global;

/// Gives back the blocks of all fields and values.
pub(crate) fn end_table<B: BlockStore>(store: &mut B, table: Dict<BlockRef>)
    requires { Owned (blocks_of table) (B.blocks store.old) }
    ensures changes { Changes (B.blocks store.old) (B.blocks store.new) (blocks_of table) [] }
    ensures served { Served B.step store.old store.new }
{
    for at in 0..table.top() {
        if table.is_entry(at) {
            let (key, value) = table.entry(at);
            end_entry(store, key, *value);
        }
    }
}

/// Puts in a field that isn't there. `Memory` leaves dictionary and blocks.
pub(crate) fn hash_field<B: BlockStore>(
    store: &mut B,
    table: &mut Dict<BlockRef>,
    field: &[u8],
    value: &[u8],
) -> Result<(), Memory>
    requires keyed { Keyed (B.blocks store.old) table.old }
    requires owned { Owned (blocks_of table.old) (B.blocks store.old) }
    requires absent { Lacks (B.blocks store.old) table.old field.now }
    ensures hashed { OnOk result (IsHashed (B.blocks store.old) (B.blocks store.new) table.old table.new (insert (fields_in (B.blocks store.old) table.old) field.now value.now)) }
    ensures served { Served B.step store.old store.new }
    ensures err_table { OnErr result (table.new ≡ table.old) }
    ensures err_blocks { OnErr result (B.blocks store.new ≡ B.blocks store.old) }
{
    let (key, at) = place_entry(store, field, value)?;
    match table.insert(store, key, at) {
        Ok(_) => Ok(()),
        Err((_, error)) => {
            end_entry(store, key, at);
            Err(error)
        }
    }
}

// Gives the field of an item number another value, and the old value's block back. `Memory` leaves dictionary and blocks.
fn swap_value<B: BlockStore>(
    store: &mut B,
    table: &mut Dict<BlockRef>,
    at: usize,
    value: &[u8],
) -> Result<(), Memory>
    requires keyed { Keyed (B.blocks store.old) table.old }
    requires owned { Owned (blocks_of table.old) (B.blocks store.old) }
    requires entry { IsSome (item table.old at) }
    ensures hashed { OnOk result
        (IsHashed (B.blocks store.old) (B.blocks store.new) table.old table.new
        (insert (fields_in (B.blocks store.old) table.old) (key_of (B.blocks store.old) (item table.old at)) value.now)) }
    ensures served { Served B.step store.old store.new }
    ensures err_table { OnErr result (table.new ≡ table.old) }
    ensures err_blocks { OnErr result (B.blocks store.new ≡ B.blocks store.old) }
{
    let new = put_block(store, value)?;
    let old = table.swap_value(at, new);
    store.give_back(old);
    Ok(())
}

// Writes a value over that of an item number, which has as many bytes.
fn overwrite_value<B: BlockStore>(
    store: &mut B,
    table: &Dict<BlockRef>,
    at: usize,
    old: BlockRef,
    value: &[u8],
)
    requires keyed { Keyed (B.blocks store.old) table.now }
    requires owned { Owned (blocks_of table.now) (B.blocks store.old) }
    requires entry { (key : BlockRef) × Holds table.now at key old }
    requires same { length (bytes_at (B.blocks store.old) old) ≡ length value.now }
    ensures hashed { IsHashed (B.blocks store.old) (B.blocks store.new) table.now table.now
        (insert (fields_in (B.blocks store.old) table.now) (key_of (B.blocks store.old) (item table.now at)) value.now) }
    ensures served { Served B.step store.old store.new }
{
    store.write(old, 0, value);
}

// Gives the field of an item number another value, in the old value's block where that is just as long. `Memory` leaves dictionary
// and blocks.
fn put_value<B: BlockStore>(
    store: &mut B,
    table: &mut Dict<BlockRef>,
    at: usize,
    value: &[u8],
) -> Result<(), Memory>
    requires keyed { Keyed (B.blocks store.old) table.old }
    requires owned { Owned (blocks_of table.old) (B.blocks store.old) }
    requires entry { IsSome (item table.old at) }
    ensures hashed { OnOk result
        (IsHashed (B.blocks store.old) (B.blocks store.new) table.old table.new
        (insert (fields_in (B.blocks store.old) table.old) (key_of (B.blocks store.old) (item table.old at)) value.now)) }
    ensures served { Served B.step store.old store.new }
    ensures err_table { OnErr result (table.new ≡ table.old) }
    ensures err_blocks { OnErr result (B.blocks store.new ≡ B.blocks store.old) }
{
    let (_, old) = table.entry(at);
    let old = *old;
    if store.bytes(old).len() != value.len() {
        return swap_value(store, table, at, value);
    }
    overwrite_value(store, table, at, old, value);
    Ok(())
}

/// Gives a field this value, and answers whether the field is new. `Memory` leaves dictionary and blocks.
pub(crate) fn set_field<B: BlockStore>(
    store: &mut B,
    table: &mut Dict<BlockRef>,
    field: &[u8],
    value: &[u8],
) -> Result<bool, Memory>
    requires keyed { Keyed (B.blocks store.old) table.old }
    requires owned { Owned (blocks_of table.old) (B.blocks store.old) }
    ensures there { IfOk result (λ new. new ≡ not (contains_key (fields_in (B.blocks store.old) table.old) field.now)) }
    ensures hashed { OnOk result (IsHashed (B.blocks store.old) (B.blocks store.new) table.old table.new (insert (fields_in (B.blocks store.old) table.old) field.now value.now)) }
    ensures served { Served B.step store.old store.new }
    ensures err_table { OnErr result (table.new ≡ table.old) }
    ensures err_blocks { OnErr result (B.blocks store.new ≡ B.blocks store.old) }
{
    match table.find(store, field) {
        Some(at) => {
            put_value(store, table, at, value)?;
            Ok(false)
        }
        None => {
            hash_field(store, table, field, value)?;
            Ok(true)
        }
    }
}

// Puts in a field that isn't there, both given as elements. `Memory` leaves dictionary and blocks.
fn hash_elements<B: BlockStore>(
    store: &mut B,
    table: &mut Dict<BlockRef>,
    field: Element<'_>,
    value: Element<'_>,
) -> Result<(), Memory>
    requires keyed { Keyed (B.blocks store.old) table.old }
    requires owned { Owned (blocks_of table.old) (B.blocks store.old) }
    requires absent { Lacks (B.blocks store.old) table.old (element_text field) }
    ensures hashed { OnOk result
        (IsHashed (B.blocks store.old) (B.blocks store.new) table.old table.new (insert (fields_in (B.blocks store.old) table.old) (element_text field.entry) (element_text value.entry))) }
    ensures served { Served B.step store.old store.new }
    ensures err_table { OnErr result (table.new ≡ table.old) }
    ensures err_blocks { OnErr result (B.blocks store.new ≡ B.blocks store.old) }
{
    let mut field_room = Buffer::new();
    let mut value_room = Buffer::new();
    hash_field(
        store,
        table,
        text(field, &mut field_room),
        text(value, &mut value_room),
    )
}

/// A dictionary of so many pairs of a listpack, put in in their order. `Memory` leaves all blocks.
pub(crate) fn hash_pack<B: BlockStore>(
    alloc: Global,
    seed: u64,
    store: &mut B,
    bytes: &[u8],
    count: usize,
) -> Result<Dict<BlockRef>, Memory>
    requires pack { IsPairPack bytes.now }
    requires once { IsOnce (pairs bytes.now) }
    requires count { count ≡ length (pairs bytes.now) }
    ensures hashed { IfOk result (λ table. IsHashed (B.blocks store.old) (B.blocks store.new) (no_fields seed) table (map_of_pairs (pairs bytes.now))) }
    ensures served { Served B.step store.old store.new }
    ensures err_blocks { OnErr result (B.blocks store.new ≡ B.blocks store.old) }
{
    let mut table = Dict::new(alloc, seed);
    let mut next = first_place(bytes);
    for _ in 0..count {
        match next {
            Some(at) => {
                if let Err(error) = hash_elements(
                    store,
                    &mut table,
                    first(bytes, at),
                    second(bytes, at),
                ) {
                    end_table(store, table);
                    return Err(error);
                }
                next = next_place(bytes, at);
            }
            None => unreachable!(),
        }
    }
    Ok(table)
}

/// Takes a field out of the dictionary, gives both its blocks back, and shrinks the dictionary. The answer is whether it was there.
/// `Memory` comes from the last of these alone, and leaves the field taken out.
pub(crate) fn unhash_field<B: BlockStore>(
    store: &mut B,
    table: &mut Dict<BlockRef>,
    field: &[u8],
) -> Result<bool, Memory>
    requires keyed { Keyed (B.blocks store.old) table.old }
    requires owned { Owned (blocks_of table.old) (B.blocks store.old) }
    ensures there { IfOk result (λ was. was ≡ contains_key (fields_in (B.blocks store.old) table.old) field.now) }
    ensures hashed { result ≢ Ok false → IsHashed (B.blocks store.old) (B.blocks store.new) table.old table.new (remove (fields_in (B.blocks store.old) table.old) field.now) }
    ensures served { Served B.step store.old store.new }
    ensures settled { result ≡ Ok true → IsSettled (key_tables (B.blocks store.new) table.new) }
    ensures same_table { result ≡ Ok false → table.new ≡ table.old }
    ensures same_blocks { result ≡ Ok false → B.blocks store.new ≡ B.blocks store.old }
{
    match table.remove(store, field) {
        Some((key, value)) => {
            end_entry(store, key, value);
            table.shrink()?;
            Ok(true)
        }
        None => Ok(false),
    }
}
