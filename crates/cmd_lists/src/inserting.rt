//! The command that puts an element beside another one.

ghost use Rattle.std.specs.Prelude.{◌≡◌, ◌<◌, ◌≤◌, ◌+◌, ◌^◌, ℕ, List, [], length, IfOk, IfSome, MatchOption};
ghost use Rattle.quicklist.specs.Chain.{elements, IsQuick};
ghost use Rattle.plain_model.specs.ListSteps.{places};
ghost use Rattle.plain_model.specs.declared.list_command.ListCommand.TheVariants as lists;
ghost use Rattle.keyspace.specs.Scopes.{one_key};
ghost use Rattle.keyspace.specs.Forms.{Formed, list_form};
ghost use Rattle.keyspace.specs.Commands.{Ready, KeepsOrRefuses, visible};
ghost use Rattle.cmd_lists.specs.Found.{Gives};
ghost use Rattle.cmd_lists.specs.Changed.{HasList, ListItem};
ghost use Rattle.cmd_lists.specs.Inserted.{IsFirst, IsBeside, Inserts};

use crate::changing::{change_list, list_sought};
use crate::edits::ListEdit;
use crate::positions::{first_met, met_behind, there};
use blocks::BlockStore;
use keyspace::{Keyspace, Look, Value, count_reply, seek};
use plain_model::{Ctx, ListEnd, Memory, Refusal, Reply, Side};
use quicklist::{Quick, is_text};

// The index of the first element that is a text.
fn first_equal<B: BlockStore>(store: &B, list: &Quick, text: &[u8]) -> Option<usize>
    requires { IsQuick (B.blocks store.now) list.now }
    ensures found { MatchOption result (places 0 text.now (elements (B.blocks store.now) list.now) ≡ []) (IsFirst text.now (elements (B.blocks store.now) list.now)) }
    ensures fits { IfSome result (λ index. index + 1 < 2 ^ 64) }
{
    let end = ListEnd::Head;
    let mut place = first_met(store, list, end);
    for index in 0..list.len() {
        let cursor = there(place);
        if is_text(list.element(store, cursor), text) {
            return Some(index);
        }
        place = met_behind(store, list, end, cursor);
    }
    None
}

// Before which index of a list an element is put that is to stand on this side of the first one that equals the pivot.
fn index_beside<B: BlockStore>(store: &B, list: &Quick, side: Side, pivot: &[u8]) -> Option<usize>
    requires { IsQuick (B.blocks store.now) list.now }
    ensures { IsBeside side pivot.now (elements (B.blocks store.now) list.now) result }
{
    match first_equal(store, list, pivot) {
        None => None,
        Some(index) => match side {
            Side::Before => Some(index),
            Side::After => Some(index + 1),
        },
    }
}

// The same for the list at a key, by its item number.
fn index_at<B: BlockStore>(
    keyspace: &Keyspace<B>,
    at: &Ctx,
    key: &[u8],
    item: usize,
    side: Side,
    pivot: &[u8],
) -> Option<usize>
    requires ready { Ready B.blocks keyspace.now at.now }
    requires there { ListItem (visible B.blocks keyspace.now at.now) keyspace.now.bases (B.blocks keyspace.now.store) at.now.db key.now at.now.moment item }
    ensures { (list : List (List ℕ)) → HasList (visible B.blocks keyspace.now at.now) key.now list → IsBeside side pivot.now list result }
{
    // the item number tells the key
    let _ = key;
    let value = keyspace.value_at(at.db, item);
    match value {
        Value::List(list) => index_beside(&keyspace.store, list, side, pivot),
        _ => unreachable!(),
    }
}

/// An element to be put before an index of a list, and the length of the list then.
#[derive(Drop)]
pub struct Insert<'a> {
    pub index: usize,
    pub element: &'a [u8],
    pub length: usize,
}

impl<'a> ListEdit for Insert<'a> {
    ghost takes = { λ insert list. insert.index ≤ length list };

    ghost makes = { λ first last list from now form. Inserts first.index first.element.now last.length list from now form };

    #[tactic(auto, using(crate::proofs::Rising::written_form))]
    fn edit_list<B: BlockStore>(&mut self, list: &mut Quick, store: &mut B) -> Result<(), Memory> {
        list.insert(store, self.index, self.element)?;
        self.length = list.len();
        Ok(())
    }
}

/// `LINSERT key BEFORE|AFTER pivot element`: the new length, or -1 where no element equals the pivot, or 0 where there is no list.
pub fn linsert<B: BlockStore>(
    keyspace: &mut Keyspace<B>,
    at: &Ctx,
    key: &[u8],
    side: Side,
    pivot: &[u8],
    element: &[u8],
) -> Result<Reply, Memory>
    requires ready { Ready B.blocks keyspace.old at.now }
    ensures gives { Gives B.blocks keyspace.old keyspace.new at.now (lists.LInsert key.now side pivot.now element.now) result }
    ensures kept { KeepsOrRefuses B.blocks B.step (one_key at.now.db key.now) keyspace.old keyspace.new result }
    ensures forms { IfOk result (λ reply. Formed B.blocks (list_form at.now.db (visible B.blocks keyspace.old at.now) (lists.LInsert key.now side pivot.now element.now)) keyspace.old keyspace.new) }
{
    let alloc = keyspace.alloc();
    let found = seek(keyspace, at, key);
    let item = match list_sought(keyspace, at, key, found) {
        Look::Other => return Reply::refused(alloc, Refusal::WrongType),
        Look::Missing => return count_reply(alloc, 0),
        Look::There(item) => item,
    };
    let index = match index_at(keyspace, at, key, item, side, pivot) {
        None => return Reply::number(alloc, -1),
        Some(index) => index,
    };
    let insert = Insert {
        index,
        element,
        length: 0,
    };
    let insert = change_list(keyspace, at, key, found.sought, Some(item), insert)?;
    count_reply(alloc, insert.length)
}
