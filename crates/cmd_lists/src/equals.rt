//! The command that removes elements that equal one.

ghost use Rattle.std.specs.Prelude.{◌≡◌, IfOk};
ghost use Rattle.plain_model.specs.declared.list_command.ListCommand.TheVariants as lists;
ghost use Rattle.keyspace.specs.Scopes.{one_key};
ghost use Rattle.keyspace.specs.Forms.{Formed, list_form};
ghost use Rattle.keyspace.specs.Commands.{Ready, KeepsOrRefuses, visible};
ghost use Rattle.cmd_lists.specs.Found.{Gives};
ghost use Rattle.cmd_lists.specs.Removed.{TakesOut, end_from, most_of};

use crate::changing::{change_list, list_sought};
use crate::edits::ListEdit;
use blocks::BlockStore;
use keyspace::{Keyspace, Look, count_reply, seek};
use plain_model::{Ctx, Memory, Refusal, Reply};
use quicklist::{End, Quick};

// The end from which a count removes.
fn end_of(count: i64) -> End
    ensures { result ≡ end_from count }
{
    if count < 0 { End::Tail } else { End::Head }
}

// How many elements it removes at most, all for 0.
fn most(count: i64) -> usize
    ensures { result ≡ most_of count }
{
    count.unsigned_abs() as usize
}

/// Elements that are a text, to be taken out of a list: so many from an end on, all for 0.
#[derive(Drop)]
pub struct RemoveEqual<'a> {
    pub text: &'a [u8],
    pub end: End,
    pub wanted: usize,
    /// How many were taken out.
    pub removed: usize,
}

impl<'a> ListEdit for RemoveEqual<'a> {
    ghost takes = { λ remove list. Unit {0} };

    ghost makes = { λ first last list from now form. TakesOut first.text.now first.end first.wanted last.removed list from now form };

    fn edit_list<B: BlockStore>(&mut self, list: &mut Quick, store: &mut B) -> Result<(), Memory> {
        self.removed = list.remove_equal(store, self.text, self.end, self.wanted)?;
        Ok(())
    }
}

/// `LREM key count element`: how many elements were removed that equal this one: the first `count` from the head on, the first
/// `-count` from the tail on, or all for 0.
pub fn lrem<B: BlockStore>(
    keyspace: &mut Keyspace<B>,
    at: &Ctx,
    key: &[u8],
    n: i64,
    element: &[u8],
) -> Result<Reply, Memory>
    requires ready { Ready B.blocks keyspace.old at.now }
    ensures gives { Gives B.blocks keyspace.old keyspace.new at.now (lists.LRem key.now n element.now) result }
    ensures kept { KeepsOrRefuses B.blocks B.step (one_key at.now.db key.now) keyspace.old keyspace.new result }
    ensures forms { IfOk result (λ reply. Formed B.blocks (list_form at.now.db (visible B.blocks keyspace.old at.now) (lists.LRem key.now n element.now)) keyspace.old keyspace.new) }
{
    let alloc = keyspace.alloc();
    let found = seek(keyspace, at, key);
    let item = match list_sought(keyspace, at, key, found) {
        Look::Other => return Reply::refused(alloc, Refusal::WrongType),
        Look::Missing => return count_reply(alloc, 0),
        Look::There(item) => item,
    };
    let remove = RemoveEqual {
        text: element,
        end: end_of(n),
        wanted: most(n),
        removed: 0,
    };
    let remove = change_list(keyspace, at, key, found.sought, Some(item), remove)?;
    count_reply(alloc, remove.removed)
}
