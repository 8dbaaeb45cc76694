//! The command that takes members out of a set.

ghost use Rattle.std.specs.Prelude.{◌≡◌, ◌<◌, ℕ, OnOk, IfOk};
ghost use Rattle.std.specs.FinMap.{remove, len};
ghost use Rattle.blocks.specs.Blocks.{Changes, Served};
ghost use Rattle.rehash_dict.specs.Grown.{Grown};
ghost use Rattle.rehash_dict.specs.Keyed.{hash_of};
ghost use Rattle.set_object.specs.Members.{IsMembers, KeepsSettings, members, refs, form_of, tables};
ghost use Rattle.keyspace.specs.Insides.{SettledBelow, SettlesAt};
ghost use Rattle.plain_model.specs.SetSteps.{drop_all};
ghost use Rattle.plain_model.specs.declared.set_command.SetCommand.TheVariants as sets;
ghost use Rattle.keyspace.specs.Scopes.{one_key};
ghost use Rattle.keyspace.specs.Forms.{Formed, set_form};
ghost use Rattle.keyspace.specs.Commands.{Ready, KeepsOrRefuses, visible};
ghost use Rattle.cmd_sets.specs.Edited.{Drops};
ghost use Rattle.cmd_sets.specs.Found.{Gives};

use crate::changing::{change_set, set_sought};
use crate::edits::SetEdit;
use blocks::BlockStore;
use keyspace::{Keyspace, Look, count_reply, seek};
use plain_model::{Ctx, Memory, Refusal, Reply, Word};
use set_object::Members;

// Takes a member out of a set, where it is there.
fn drop_one<B: BlockStore>(set: &mut Members, store: &mut B, member: &[u8]) -> Result<(), Memory>
    requires { IsMembers (B.blocks store.old) set.old }
    ensures sound { IsMembers (B.blocks store.new) set.new }
    ensures settings { KeepsSettings set.old set.new }
    ensures grown { Grown (hash_of set.old.seed) (tables (B.blocks store.old) set.old) (tables (B.blocks store.new) set.new) }
    ensures settles { OnOk result
        ((most : ℕ) → SettledBelow most (len (members (B.blocks store.old) set.old)) (tables (B.blocks store.old) set.old)
        → SettledBelow most (len (members (B.blocks store.new) set.new)) (tables (B.blocks store.new) set.new)) }
    ensures members { OnOk result (members (B.blocks store.new) set.new ≡ remove (members (B.blocks store.old) set.old) member.now) }
    ensures form { OnOk result (0 < len (remove (members (B.blocks store.old) set.old) member.now) → form_of set.new ≡ form_of set.old) }
    ensures changes { Changes (B.blocks store.old) (B.blocks store.new) (refs set.old) (refs set.new) }
    ensures served { Served B.step store.old store.new }
{
    match set.remove(store, member) {
        Ok(_) => Ok(()),
        Err(error) => Err(error),
    }
}

/// Takes members out of a set, one after the other.
pub fn drop_words<B: BlockStore>(
    set: &mut Members,
    store: &mut B,
    words: &[Word<'_>],
) -> Result<(), Memory>
    requires { IsMembers (B.blocks store.old) set.old }
    ensures sound { IsMembers (B.blocks store.new) set.new }
    ensures settings { KeepsSettings set.old set.new }
    ensures grown { Grown (hash_of set.old.seed) (tables (B.blocks store.old) set.old) (tables (B.blocks store.new) set.new) }
    ensures settles { OnOk result
        ((most : ℕ) → SettledBelow most (len (members (B.blocks store.old) set.old)) (tables (B.blocks store.old) set.old)
        → SettledBelow most (len (members (B.blocks store.new) set.new)) (tables (B.blocks store.new) set.new)) }
    ensures members { OnOk result (members (B.blocks store.new) set.new ≡ drop_all (members (B.blocks store.old) set.old) words.now) }
    ensures form { OnOk result (0 < len (members (B.blocks store.new) set.new) → form_of set.new ≡ form_of set.old) }
    ensures changes { Changes (B.blocks store.old) (B.blocks store.new) (refs set.old) (refs set.new) }
    ensures served { Served B.step store.old store.new }
{
    for word in words {
        drop_one(set, store, word.as_slice())?;
    }
    Ok(())
}

/// Members to be taken out of a set, and how many of them were there.
#[derive(Drop)]
pub struct Remove<'a> {
    pub words: &'a [Word<'a>],
    pub removed: usize,
}

impl<'a> SetEdit for Remove<'a> {
    ghost takes = { λ edit members. Unit {0} };

    ghost makes = { λ limits first last members from now form. Drops first.words.now last.removed members from now form };

    fn edit_set<B: BlockStore>(&mut self, set: &mut Members, store: &mut B) -> Result<(), Memory> {
        let before = set.len();
        drop_words(set, store, self.words)?;
        self.removed = before - set.len();
        Ok(())
    }
}

/// `SREM key member..`: how many of the members were there. The key goes with its last member.
pub fn srem<B: BlockStore>(
    keyspace: &mut Keyspace<B>,
    at: &Ctx,
    key: &[u8],
    members: &[Word<'_>],
) -> Result<Reply, Memory>
    requires ready { Ready B.blocks keyspace.old at.now }
    ensures gives { Gives B.blocks keyspace.old keyspace.new at.now (sets.SRem key.now members.now) result }
    ensures kept { KeepsOrRefuses B.blocks B.step (one_key at.now.db key.now) keyspace.old keyspace.new result }
    ensures settles { IfOk result (λ reply. SettlesAt B.blocks keyspace.old keyspace.new at.now key.now) }
    ensures forms { IfOk result (λ reply. Formed B.blocks (set_form at.now.db (visible B.blocks keyspace.old at.now) (sets.SRem key.now members.now)) keyspace.old keyspace.new) }
{
    let alloc = keyspace.alloc();
    let found = seek(keyspace, at, key);
    let item = match set_sought(keyspace, at, key, found) {
        Look::Other => return Reply::refused(alloc, Refusal::WrongType),
        Look::Missing => return count_reply(alloc, 0),
        Look::There(item) => item,
    };
    let edit = Remove {
        words: members,
        removed: 0,
    };
    let edit = change_set(keyspace, at, key, found.sought, Some(item), edit)?;
    count_reply(alloc, edit.removed)
}
