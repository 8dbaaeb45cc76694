//! The command that leaves a range of a list.

ghost use Rattle.std.specs.Prelude.{◌≡◌, ◌+◌, ◌≤◌, OnOk, IfOk, length, take, drop};
ghost use Rattle.blocks.specs.Blocks.{Changes, Served};
ghost use Rattle.quicklist.specs.Chain.{elements, refs, IsQuick};
ghost use Rattle.plain_model.specs.declared.list_command.ListCommand.TheVariants as lists;
ghost use Rattle.keyspace.specs.Scopes.{one_key};
ghost use Rattle.keyspace.specs.Forms.{Formed, list_form};
ghost use Rattle.keyspace.specs.Commands.{Ready, KeepsOrRefuses, visible};
ghost use Rattle.cmd_lists.specs.Found.{Gives};
ghost use Rattle.cmd_lists.specs.Written.{Trims};

use crate::changing::{change_list, length_at, list_sought};
use crate::edits::ListEdit;
use crate::reading::reach_of;
use blocks::BlockStore;
use keyspace::{Keyspace, Look, seek};
use plain_model::{Ctx, Line, Memory, Refusal, Reply};
use quicklist::Quick;

// Leaves so many elements of a list from a place on.
fn leave<B: BlockStore>(
    list: &mut Quick,
    store: &mut B,
    first: usize,
    count: usize,
) -> Result<(), Memory>
    requires quick { IsQuick (B.blocks store.old) list.old }
    requires inside { first + count ≤ length (elements (B.blocks store.old) list.old) }
    ensures quick { IsQuick (B.blocks store.new) list.new }
    ensures list { OnOk result (elements (B.blocks store.new) list.new ≡ take count (drop first (elements (B.blocks store.old) list.old))) }
    ensures form { list.new.form ≡ list.old.form }
    ensures changes { Changes (B.blocks store.old) (B.blocks store.new) (refs list.old) (refs list.new) }
    ensures served { Served B.step store.old store.new }
{
    let len = list.len();
    list.remove_range(store, first + count, len)?;
    list.remove_range(store, 0, first)
}

/// A list of which so many elements from a place on are to be left.
#[derive(Drop)]
pub struct Trim {
    pub first: usize,
    pub count: usize,
}

impl ListEdit for Trim {
    ghost takes = { λ trim list. trim.first + trim.count ≤ length list };

    ghost makes = { λ first last list from now form. Trims first.first first.count list from now form };

    fn edit_list<B: BlockStore>(&mut self, list: &mut Quick, store: &mut B) -> Result<(), Memory> {
        leave(list, store, self.first, self.count)
    }
}

/// `LTRIM key a b`: OK; the elements from index a to index b are left, where a negative index counts from the end.
pub fn ltrim<B: BlockStore>(
    keyspace: &mut Keyspace<B>,
    at: &Ctx,
    key: &[u8],
    a: i64,
    b: i64,
) -> Result<Reply, Memory>
    requires ready { Ready B.blocks keyspace.old at.now }
    ensures gives { Gives B.blocks keyspace.old keyspace.new at.now (lists.LTrim key.now a b) result }
    ensures kept { KeepsOrRefuses B.blocks B.step (one_key at.now.db key.now) keyspace.old keyspace.new result }
    ensures forms { IfOk result (λ reply. Formed B.blocks (list_form at.now.db (visible B.blocks keyspace.old at.now) (lists.LTrim key.now a b)) keyspace.old keyspace.new) }
{
    let alloc = keyspace.alloc();
    let found = seek(keyspace, at, key);
    let item = match list_sought(keyspace, at, key, found) {
        Look::Other => return Reply::refused(alloc, Refusal::WrongType),
        Look::Missing => return Reply::simple(alloc, Line::ok()),
        Look::There(item) => item,
    };
    let (first, count) = reach_of(length_at(keyspace, at, key, item), a, b);
    let trim = Trim { first, count };
    let _ = change_list(keyspace, at, key, found.sought, Some(item), trim)?;
    Reply::simple(alloc, Line::ok())
}
