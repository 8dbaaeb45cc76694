//! What is done to a list in its place.

ghost use Rattle.std.specs.Prelude.{ℕ, List, OnOk};
ghost use Rattle.blocks.specs.Blocks.{Changes, Served};
ghost use Rattle.object_codec.specs.declared.form.Form.{Form};
ghost use Rattle.quicklist.specs.Chain.{elements, refs, IsQuick};
ghost use Rattle.cmd_lists.specs.Changed.{IsListThat, MakesList};

use blocks::BlockStore;
use keyspace::{Edit, Value};
use plain_model::Memory;
use quicklist::Quick;

/// What is done to a list. It may keep an answer.
pub trait ListEdit: Drop {
    /// It may be done to a list of these elements.
    ghost takes: { Self → List (List ℕ) → Type 0 };

    /// What it makes of the elements of a list and of its form.
    ghost makes: { Self → Self → List (List ℕ) → Form → List (List ℕ) → Form → Type 0 };

    /// Changes a list. After want of memory it is sound, and what it means is not said.
    fn edit_list<B: BlockStore>(&mut self, list: &mut Quick, store: &mut B) -> Result<(), Memory>
        requires quick { IsQuick (B.blocks store.old) list.old }
        requires takes { takes self.old (elements (B.blocks store.old) list.old) }
        ensures quick { IsQuick (B.blocks store.new) list.new }
        ensures makes { OnOk result (makes self.old self.new (elements (B.blocks store.old) list.old) list.old.form (elements (B.blocks store.new) list.new) list.new.form) }
        ensures changes { Changes (B.blocks store.old) (B.blocks store.new) (refs list.old) (refs list.new) }
        ensures served { Served B.step store.old store.new };
}

/// What is done to a value that is a list.
#[derive(Drop)]
pub struct OnList<E> {
    pub edit: E,
    /// How many elements are left.
    pub left: usize,
}

impl<E: ListEdit> Edit for OnList<E> {
    ghost takes = { λ on value. IsListThat (E.takes on.edit) value };

    ghost makes = { λ first last old new. MakesList (E.makes first.edit last.edit) last.left old new };

    fn edit<B: BlockStore>(&mut self, value: &mut Value, store: &mut B) -> Result<(), Memory> {
        match value {
            Value::Text(_) | Value::Set(_) | Value::Hash(_) | Value::Zset(_) | Value::Stream(_) =>
                unreachable!(),
            Value::List(list) => {
                self.edit.edit_list(list, store)?;
                self.left = list.len();
                Ok(())
            }
        }
    }
}
