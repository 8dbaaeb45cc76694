//! Sets whose members are hashed, over stores of their own.

ghost use Rattle.std.specs.Prelude.{◌≡◌, OnOk};
ghost use Rattle.std.specs.FinMap.{insert};
ghost use Rattle.listpack.specs.Element.{element_text};
ghost use Rattle.object_codec.specs.Limits.{AreInRange};
ghost use Rattle.set_object.specs.Members.{IsMembers, listed, members};
ghost use Rattle.plain_model.specs.SetSteps.{add_all};

use crate::adding::add_one;
use blocks::BlockStore;
use keyspace::number_text;
use listpack::Element;
use object_codec::Limits;
use plain_model::Memory;
use set_object::Members;
use std::alloc::Global;

/// Limits within which no set is packed.
pub fn never_packed() -> Limits
    ensures { AreInRange result }
{
    Limits {
        hash_entries: 0,
        set_entries: 0,
        zset_entries: 0,
        hash_value: 0,
        set_value: 0,
        zset_value: 0,
        set_intset: 0,
    }
}

// Puts the text of an element into a set.
fn add_element<B: BlockStore>(
    alloc: Global,
    set: &mut Members,
    store: &mut B,
    element: Element<'_>,
) -> Result<(), Memory>
    requires { IsMembers (B.blocks store.old) set.old }
    ensures sound { OnOk result (IsMembers (B.blocks store.new) set.new) }
    ensures members { OnOk result (members (B.blocks store.new) set.new ≡ insert (members (B.blocks store.old) set.old) (element_text element.entry) tt) }
{
    match element {
        Element::Text(text) => add_one(set, store, text),
        Element::Number(n) => {
            let digits = number_text(alloc, n)?;
            add_one(set, store, digits.as_slice())
        }
    }
}

/// Puts the members of a set into another one over a store of its own, in one pass.
pub fn add_members<A: BlockStore, B: BlockStore>(
    alloc: Global,
    store: &A,
    set: &Members,
    own: &mut B,
    all: &mut Members,
) -> Result<(), Memory>
    requires sound { IsMembers (A.blocks store.now) set.now }
    requires all { IsMembers (B.blocks own.old) all.old }
    ensures sound { OnOk result (IsMembers (B.blocks own.new) all.new) }
    ensures members { OnOk result (members (B.blocks own.new) all.new ≡ add_all (members (B.blocks own.old) all.old) (listed (A.blocks store.now) set.now)) }
{
    let count = set.len();
    let mut place = set.first(store);
    for index in 0..count {
        match place {
            None => unreachable!(),
            Some(cursor) => {
                add_element(alloc, all, own, set.element(store, cursor))?;
                place = set.next(store, cursor);
            }
        }
    }
    Ok(())
}
