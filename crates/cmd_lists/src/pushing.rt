//! Commands that put elements at an end of a list.

ghost use Rattle.std.specs.Prelude.{◌≡◌, ◌<◌, [], ◌∷◌, OnOk, IfOk, length};
ghost use Rattle.blocks.specs.Blocks.{Changes, Served};
ghost use Rattle.quicklist.specs.Chain.{elements, refs, IsQuick, IsRisen};
ghost use Rattle.plain_model.specs.Outcomes.{leaves};
ghost use Rattle.plain_model.specs.ListSteps.{added, push, push_if_there};
ghost use Rattle.plain_model.specs.declared.list_command.ListCommand.TheVariants as lists;
ghost use Rattle.keyspace.specs.Scopes.{one_key};
ghost use Rattle.keyspace.specs.Forms.{Formed, list_form, list_at, risen_to};
ghost use Rattle.keyspace.specs.Commands.{Ready, KeepsOrRefuses, visible};
ghost use Rattle.cmd_lists.specs.Found.{Gives};
ghost use Rattle.cmd_lists.specs.Pushed.{Pushes};

use crate::changing::{change_list, list_sought};
use crate::edits::ListEdit;
use blocks::BlockStore;
use keyspace::{Keyspace, Look, count_reply, seek};
use plain_model::{Ctx, ListEnd, Memory, Refusal, Reply, Word};
use quicklist::Quick;

/// Puts an element at an end of a list.
#[tactic(auto, using(crate::proofs::Rising::written_form))]
pub fn push_one<B: BlockStore>(
    list: &mut Quick,
    store: &mut B,
    end: ListEnd,
    element: &[u8],
) -> Result<(), Memory>
    requires { IsQuick (B.blocks store.old) list.old }
    ensures quick { IsQuick (B.blocks store.new) list.new }
    ensures list { OnOk result (elements (B.blocks store.new) list.new ≡ added end (elements (B.blocks store.old) list.old) (element.now ∷ [])) }
    ensures form { OnOk result (IsRisen list.old.form (elements (B.blocks store.new) list.new) list.new.form) }
    ensures changes { Changes (B.blocks store.old) (B.blocks store.new) (refs list.old) (refs list.new) }
    ensures served { Served B.step store.old store.new }
{
    let index = match end {
        ListEnd::Head => 0,
        ListEnd::Tail => list.len(),
    };
    list.insert(store, index, element)
}

// Puts elements at an end of a list, one after the other.
#[tactic(auto, using(crate::proofs::Ends::added_none, crate::proofs::Rising::rises_last))]
fn push_all<B: BlockStore>(
    list: &mut Quick,
    store: &mut B,
    end: ListEnd,
    words: &[Word<'_>],
) -> Result<(), Memory>
    requires { IsQuick (B.blocks store.old) list.old }
    ensures quick { IsQuick (B.blocks store.new) list.new }
    ensures list { OnOk result (elements (B.blocks store.new) list.new ≡ added end (elements (B.blocks store.old) list.old) words.now) }
    ensures form { OnOk result (0 < length words.now → IsRisen list.old.form (elements (B.blocks store.new) list.new) list.new.form) }
    ensures changes { Changes (B.blocks store.old) (B.blocks store.new) (refs list.old) (refs list.new) }
    ensures served { Served B.step store.old store.new }
{
    for word in words {
        push_one(list, store, end, word.as_slice())?;
    }
    Ok(())
}

/// Elements to be put at an end of a list, and its length then.
#[derive(Drop)]
pub struct Push<'a> {
    pub end: ListEnd,
    pub words: &'a [Word<'a>],
    pub length: usize,
}

impl<'a> ListEdit for Push<'a> {
    ghost takes = { λ push list. Unit {0} };

    ghost makes = { λ first last list from now form. Pushes first.end first.words.now last.length list from now form };

    fn edit_list<B: BlockStore>(&mut self, list: &mut Quick, store: &mut B) -> Result<(), Memory> {
        push_all(list, store, self.end, self.words)?;
        self.length = list.len();
        Ok(())
    }
}

// Elements put at an end of the list at a key: the new length.
fn push_words<B: BlockStore>(
    keyspace: &mut Keyspace<B>,
    at: &Ctx,
    key: &[u8],
    end: ListEnd,
    words: &[Word<'_>],
) -> Result<Reply, Memory>
    requires ready { Ready B.blocks keyspace.old at.now }
    requires some { 0 < length words.now }
    ensures gives { IfOk result (λ reply. push (visible B.blocks keyspace.old at.now) end key.now words.now ≡ leaves reply (visible B.blocks keyspace.new at.now)) }
    ensures kept { KeepsOrRefuses B.blocks B.step (one_key at.now.db key.now) keyspace.old keyspace.new result }
    ensures forms { IfOk result
        (λ reply. Formed B.blocks (risen_to at.now.db (visible B.blocks keyspace.old at.now) key.now (added end (list_at (visible B.blocks keyspace.old at.now) key.now) words.now))
        keyspace.old keyspace.new) }
{
    let alloc = keyspace.alloc();
    let found = seek(keyspace, at, key);
    let there = match list_sought(keyspace, at, key, found) {
        Look::Other => return Reply::refused(alloc, Refusal::WrongType),
        Look::Missing => None,
        Look::There(item) => Some(item),
    };
    let push = Push {
        end,
        words,
        length: 0,
    };
    let push = change_list(keyspace, at, key, found.sought, there, push)?;
    count_reply(alloc, push.length)
}

// The same where there is a list, or else 0.
fn push_there<B: BlockStore>(
    keyspace: &mut Keyspace<B>,
    at: &Ctx,
    key: &[u8],
    end: ListEnd,
    words: &[Word<'_>],
) -> Result<Reply, Memory>
    requires ready { Ready B.blocks keyspace.old at.now }
    requires some { 0 < length words.now }
    ensures gives { IfOk result (λ reply. push_if_there (visible B.blocks keyspace.old at.now) end key.now words.now ≡ leaves reply (visible B.blocks keyspace.new at.now)) }
    ensures kept { KeepsOrRefuses B.blocks B.step (one_key at.now.db key.now) keyspace.old keyspace.new result }
    ensures forms { IfOk result
        (λ reply. Formed B.blocks (risen_to at.now.db (visible B.blocks keyspace.old at.now) key.now (added end (list_at (visible B.blocks keyspace.old at.now) key.now) words.now))
        keyspace.old keyspace.new) }
{
    let alloc = keyspace.alloc();
    let found = seek(keyspace, at, key);
    let item = match list_sought(keyspace, at, key, found) {
        Look::Other => return Reply::refused(alloc, Refusal::WrongType),
        Look::Missing => return count_reply(alloc, 0),
        Look::There(item) => item,
    };
    let push = Push {
        end,
        words,
        length: 0,
    };
    let push = change_list(keyspace, at, key, found.sought, Some(item), push)?;
    count_reply(alloc, push.length)
}

/// `LPUSH key element..`: the new length.
pub fn lpush<B: BlockStore>(
    keyspace: &mut Keyspace<B>,
    at: &Ctx,
    key: &[u8],
    elements: &[Word<'_>],
) -> Result<Reply, Memory>
    requires ready { Ready B.blocks keyspace.old at.now }
    requires some { 0 < length elements.now }
    ensures gives { Gives B.blocks keyspace.old keyspace.new at.now (lists.LPush key.now elements.now) result }
    ensures kept { KeepsOrRefuses B.blocks B.step (one_key at.now.db key.now) keyspace.old keyspace.new result }
    ensures forms { IfOk result (λ reply. Formed B.blocks (list_form at.now.db (visible B.blocks keyspace.old at.now) (lists.LPush key.now elements.now)) keyspace.old keyspace.new) }
{
    push_words(keyspace, at, key, ListEnd::Head, elements)
}

/// `RPUSH key element..`: the new length.
pub fn rpush<B: BlockStore>(
    keyspace: &mut Keyspace<B>,
    at: &Ctx,
    key: &[u8],
    elements: &[Word<'_>],
) -> Result<Reply, Memory>
    requires ready { Ready B.blocks keyspace.old at.now }
    requires some { 0 < length elements.now }
    ensures gives { Gives B.blocks keyspace.old keyspace.new at.now (lists.RPush key.now elements.now) result }
    ensures kept { KeepsOrRefuses B.blocks B.step (one_key at.now.db key.now) keyspace.old keyspace.new result }
    ensures forms { IfOk result (λ reply. Formed B.blocks (list_form at.now.db (visible B.blocks keyspace.old at.now) (lists.RPush key.now elements.now)) keyspace.old keyspace.new) }
{
    push_words(keyspace, at, key, ListEnd::Tail, elements)
}

/// `LPUSHX key element..`: the new length, or 0 where there is no list.
pub fn lpushx<B: BlockStore>(
    keyspace: &mut Keyspace<B>,
    at: &Ctx,
    key: &[u8],
    elements: &[Word<'_>],
) -> Result<Reply, Memory>
    requires ready { Ready B.blocks keyspace.old at.now }
    requires some { 0 < length elements.now }
    ensures gives { Gives B.blocks keyspace.old keyspace.new at.now (lists.LPushX key.now elements.now) result }
    ensures kept { KeepsOrRefuses B.blocks B.step (one_key at.now.db key.now) keyspace.old keyspace.new result }
    ensures forms { IfOk result (λ reply. Formed B.blocks (list_form at.now.db (visible B.blocks keyspace.old at.now) (lists.LPushX key.now elements.now)) keyspace.old keyspace.new) }
{
    push_there(keyspace, at, key, ListEnd::Head, elements)
}

/// `RPUSHX key element..`: the new length, or 0 where there is no list.
pub fn rpushx<B: BlockStore>(
    keyspace: &mut Keyspace<B>,
    at: &Ctx,
    key: &[u8],
    elements: &[Word<'_>],
) -> Result<Reply, Memory>
    requires ready { Ready B.blocks keyspace.old at.now }
    requires some { 0 < length elements.now }
    ensures gives { Gives B.blocks keyspace.old keyspace.new at.now (lists.RPushX key.now elements.now) result }
    ensures kept { KeepsOrRefuses B.blocks B.step (one_key at.now.db key.now) keyspace.old keyspace.new result }
    ensures forms { IfOk result (λ reply. Formed B.blocks (list_form at.now.db (visible B.blocks keyspace.old at.now) (lists.RPushX key.now elements.now)) keyspace.old keyspace.new) }
{
    push_there(keyspace, at, key, ListEnd::Tail, elements)
}
