//! Lists, element by element.

ghost use Rattle.std.specs.Prelude.{◌≡◌, ◌↔◌, IfOk, IsTrue};
ghost use Rattle.quicklist.specs.Chain.{elements, IsQuick};
ghost use Rattle.told_values.specs.Told.{texts_told};

use crate::texts::owned;
use blocks::{BlockStore, Memory};
use quicklist::Quick;
use std::alloc::Global;

/// The elements of a list in their order.
pub(crate) fn read_list<B: BlockStore>(
    alloc: Global,
    store: &B,
    list: &Quick,
) -> Result<Vec<Vec<u8>>, Memory>
    requires sound { IsQuick (B.blocks store.now) list.now }
    ensures { IfOk result (λ texts. texts_told texts.items ≡ elements (B.blocks store.now) list.now) }
{
    let mut texts = Vec::new(alloc);
    let count = list.len();
    let mut place = list.seek(store, 0);
    for index in 0..count {
        match place {
            None => unreachable!(),
            Some(cursor) => {
                let text = owned(alloc, list.element(store, cursor))?;
                texts.push(text)?;
                place = list.next(store, cursor);
            }
        }
    }
    Ok(texts)
}

/// Whether both are the same texts in the same order.
pub(crate) fn same_texts(texts: &Vec<Vec<u8>>, other: &Vec<Vec<u8>>) -> bool
    ensures { IsTrue result ↔ (texts_told texts.now.items ≡ texts_told other.now.items) }
{
    texts == other
}
