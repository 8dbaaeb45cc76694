//! The command that puts an element in the place of another.

ghost use Rattle.std.specs.Prelude.{◌<◌, IfOk, length};
ghost use Rattle.plain_model.specs.declared.list_command.ListCommand.TheVariants as lists;
ghost use Rattle.keyspace.specs.Scopes.{one_key};
ghost use Rattle.keyspace.specs.Forms.{Formed, list_form};
ghost use Rattle.keyspace.specs.Commands.{Ready, KeepsOrRefuses, visible};
ghost use Rattle.cmd_lists.specs.Found.{Gives};
ghost use Rattle.cmd_lists.specs.Written.{Replaces};

use crate::changing::{change_list, length_at, list_sought};
use crate::edits::ListEdit;
use crate::reading::place_at;
use blocks::BlockStore;
use keyspace::{Keyspace, Look, seek};
use plain_model::{Ctx, Line, Memory, Refusal, Reply};
use quicklist::Quick;

/// An element to be put in the place of another.
#[derive(Drop)]
pub struct Replace<'a> {
    pub place: usize,
    pub element: &'a [u8],
}

impl<'a> ListEdit for Replace<'a> {
    ghost takes = { λ replace list. replace.place < length list };

    ghost makes = { λ first last list from now form. Replaces first.place first.element.now list from now form };

    fn edit_list<B: BlockStore>(&mut self, list: &mut Quick, store: &mut B) -> Result<(), Memory> {
        list.set(store, self.place, self.element)
    }
}

/// `LSET key index element`: OK. A missing key and an index outside the list are refused.
pub fn lset<B: BlockStore>(
    keyspace: &mut Keyspace<B>,
    at: &Ctx,
    key: &[u8],
    index: i64,
    element: &[u8],
) -> Result<Reply, Memory>
    requires ready { Ready B.blocks keyspace.old at.now }
    ensures gives { Gives B.blocks keyspace.old keyspace.new at.now (lists.LSet key.now index element.now) result }
    ensures kept { KeepsOrRefuses B.blocks B.step (one_key at.now.db key.now) keyspace.old keyspace.new result }
    ensures forms { IfOk result (λ reply. Formed B.blocks (list_form at.now.db (visible B.blocks keyspace.old at.now) (lists.LSet key.now index element.now)) keyspace.old keyspace.new) }
{
    let alloc = keyspace.alloc();
    let found = seek(keyspace, at, key);
    let item = match list_sought(keyspace, at, key, found) {
        Look::Other => return Reply::refused(alloc, Refusal::WrongType),
        Look::Missing => return Reply::refused(alloc, Refusal::NoSuchKey),
        Look::There(item) => item,
    };
    let place = match place_at(length_at(keyspace, at, key, item), index) {
        None => return Reply::refused(alloc, Refusal::IndexOutOfRange),
        Some(place) => place,
    };
    let replace = Replace { place, element };
    let _ = change_list(keyspace, at, key, found.sought, Some(item), replace)?;
    Reply::simple(alloc, Line::ok())
}
