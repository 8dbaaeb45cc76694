// Members that are blocks of their own, in a dictionary.

ghost use Rattle.std.specs.Prelude.{◌≡◌, ◌≢◌, IfOk, OnOk, OnErr, Ok, true, false};
ghost use Rattle.std.specs.FinMap.{insert, remove};
ghost use Rattle.blocks.specs.Blocks.{Served};
ghost use Rattle.listpack.specs.Element.{element_text};
ghost use Rattle.listpack.specs.Pack.{IsPack, texts};
ghost use Rattle.rehash_dict.specs.Keyed.{Keyed, key_tables};
ghost use Rattle.rehash_dict.specs.MapOf.{content};
ghost use Rattle.rehash_dict.specs.Tables.{IsSettled};
ghost use Rattle.set_object.specs.Strings.{set_of, has, IsOnce};
ghost use Rattle.set_object.specs.Hashed.{IsHashed, no_members};

use blocks::{BlockStore, Memory, put_block};
use collection_walk::end_table;
use itoa::Buffer;
use listpack::Element;
use rehash_dict::Dict;
use std::alloc::Global;

/// Places the block of a member that isn't there, and puts it into the dictionary. `Memory` leaves dictionary and blocks.
pub(crate) fn hash_member<B: BlockStore>(
    store: &mut B,
    table: &mut Dict<()>,
    member: &[u8],
) -> Result<(), Memory>
    requires keyed { Keyed (B.blocks store.old) table.old }
    requires absent { has (content (B.blocks store.old) table.old) member.now ≡ false }
    ensures hashed { OnOk result (IsHashed (B.blocks store.old) (B.blocks store.new) table.old table.new (insert (content (B.blocks store.old) table.old) member.now tt)) }
    ensures served { Served B.step store.old store.new }
    ensures err_table { OnErr result (table.new ≡ table.old) }
    ensures err_blocks { OnErr result (B.blocks store.new ≡ B.blocks store.old) }
{
    let at = put_block(store, member)?;
    match table.insert(store, at, ()) {
        Ok(_) => Ok(()),
        Err((_, error)) => {
            store.give_back(at);
            Err(error)
        }
    }
}

// The same of an element of a packed form.
fn hash_element<B: BlockStore>(
    store: &mut B,
    table: &mut Dict<()>,
    element: Element<'_>,
) -> Result<(), Memory>
    requires keyed { Keyed (B.blocks store.old) table.old }
    requires absent { has (content (B.blocks store.old) table.old) (element_text element) ≡ false }
    ensures hashed { OnOk result (IsHashed (B.blocks store.old) (B.blocks store.new) table.old table.new (insert (content (B.blocks store.old) table.old) (element_text element.entry) tt)) }
    ensures served { Served B.step store.old store.new }
    ensures err_table { OnErr result (table.new ≡ table.old) }
    ensures err_blocks { OnErr result (B.blocks store.new ≡ B.blocks store.old) }
{
    match element {
        Element::Text(part) => hash_member(store, table, part),
        Element::Number(n) => hash_member(store, table, Buffer::new().format(n).as_bytes()),
    }
}

/// A dictionary of the elements of a listpack, put in in their order. `Memory` leaves all blocks.
pub(crate) fn hash_pack<B: BlockStore>(
    alloc: Global,
    seed: u64,
    store: &mut B,
    bytes: &[u8],
) -> Result<Dict<()>, Memory>
    requires pack { IsPack bytes.now }
    requires once { IsOnce (texts bytes.now) }
    ensures hashed { IfOk result (λ table. IsHashed (B.blocks store.old) (B.blocks store.new) (no_members seed) table (set_of (texts bytes.now))) }
    ensures served { Served B.step store.old store.new }
    ensures err_blocks { OnErr result (B.blocks store.new ≡ B.blocks store.old) }
{
    let pack = listpack::known(bytes);
    let mut table = Dict::new(alloc, seed);
    let mut next = pack.first();
    for _ in 0..pack.len() {
        match next {
            Some(at) => {
                if let Err(error) = hash_element(store, &mut table, pack.get(at)) {
                    end_table(store, table);
                    return Err(error);
                }
                next = pack.next(at);
            }
            None => unreachable!(),
        }
    }
    Ok(table)
}

/// Takes a member out of the dictionary, gives its block back, and shrinks the dictionary. The answer is whether it was there.
/// `Memory` comes from the last of these alone, and leaves the member taken out.
pub(crate) fn unhash_member<B: BlockStore>(
    store: &mut B,
    table: &mut Dict<()>,
    member: &[u8],
) -> Result<bool, Memory>
    requires keyed { Keyed (B.blocks store.old) table.old }
    ensures there { IfOk result (λ was. was ≡ has (content (B.blocks store.old) table.old) member.now) }
    ensures hashed { result ≢ Ok false → IsHashed (B.blocks store.old) (B.blocks store.new) table.old table.new (remove (content (B.blocks store.old) table.old) member.now) }
    ensures served { Served B.step store.old store.new }
    ensures settled { result ≡ Ok true → IsSettled (key_tables (B.blocks store.new) table.new) }
    ensures same_table { result ≡ Ok false → table.new ≡ table.old }
    ensures same_blocks { result ≡ Ok false → B.blocks store.new ≡ B.blocks store.old }
{
    match table.remove(store, member) {
        Some((taken, ())) => {
            store.give_back(taken);
            table.shrink()?;
            Ok(true)
        }
        None => Ok(false),
    }
}
