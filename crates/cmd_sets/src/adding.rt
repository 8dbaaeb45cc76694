//! The command that puts members into a set.

ghost use Rattle.std.specs.Prelude.{◌≡◌, OnOk, IfOk};
ghost use Rattle.std.specs.FinMap.{insert};
ghost use Rattle.blocks.specs.Blocks.{Changes, Served};
ghost use Rattle.rehash_dict.specs.Grown.{Grown};
ghost use Rattle.rehash_dict.specs.Keyed.{hash_of};
ghost use Rattle.set_object.specs.Members.{IsMembers, KeepsSettings, members, refs, form_of, tables};
ghost use Rattle.plain_model.specs.SetSteps.{add_all};
ghost use Rattle.plain_model.specs.declared.set_command.SetCommand.TheVariants as sets;
ghost use Rattle.keyspace.specs.Scopes.{one_key};
ghost use Rattle.keyspace.specs.Forms.{Formed, RisesTo, RisesWith, set_form};
ghost use Rattle.keyspace.specs.Commands.{Ready, KeepsOrRefuses, visible};
ghost use Rattle.cmd_sets.specs.Edited.{Adds};
ghost use Rattle.cmd_sets.specs.Found.{Gives};

use crate::changing::{change_set, set_sought};
use crate::edits::SetEdit;
use blocks::BlockStore;
use keyspace::{Keyspace, Look, count_reply, seek};
use plain_model::{Ctx, Memory, Refusal, Reply, Word};
use set_object::Members;

/// Puts a member into a set, where it isn't there.
pub fn add_one<B: BlockStore>(set: &mut Members, store: &mut B, member: &[u8]) -> Result<(), Memory>
    requires { IsMembers (B.blocks store.old) set.old }
    ensures sound { IsMembers (B.blocks store.new) set.new }
    ensures settings { KeepsSettings set.old set.new }
    ensures grown { Grown (hash_of set.old.seed) (tables (B.blocks store.old) set.old) (tables (B.blocks store.new) set.new) }
    ensures members { OnOk result (members (B.blocks store.new) set.new ≡ insert (members (B.blocks store.old) set.old) member.now tt) }
    ensures form { OnOk result (RisesTo set.old.limits (form_of set.old) (members (B.blocks store.old) set.old) member.now (form_of set.new)) }
    ensures changes { Changes (B.blocks store.old) (B.blocks store.new) (refs set.old) (refs set.new) }
    ensures served { Served B.step store.old store.new }
{
    match set.add(store, member) {
        Ok(_) => Ok(()),
        Err(error) => Err(error),
    }
}

// Puts members into a set, one after the other.
fn add_words<B: BlockStore>(
    set: &mut Members,
    store: &mut B,
    words: &[Word<'_>],
) -> Result<(), Memory>
    requires { IsMembers (B.blocks store.old) set.old }
    ensures sound { IsMembers (B.blocks store.new) set.new }
    ensures settings { KeepsSettings set.old set.new }
    ensures grown { Grown (hash_of set.old.seed) (tables (B.blocks store.old) set.old) (tables (B.blocks store.new) set.new) }
    ensures members { OnOk result (members (B.blocks store.new) set.new ≡ add_all (members (B.blocks store.old) set.old) words.now) }
    ensures form { OnOk result (RisesWith set.old.limits (form_of set.old) (members (B.blocks store.old) set.old) words.now (form_of set.new)) }
    ensures changes { Changes (B.blocks store.old) (B.blocks store.new) (refs set.old) (refs set.new) }
    ensures served { Served B.step store.old store.new }
{
    for word in words {
        add_one(set, store, word.as_slice())?;
    }
    Ok(())
}

/// Members to be put into a set, and how many of them were new.
#[derive(Drop)]
pub struct Add<'a> {
    pub words: &'a [Word<'a>],
    pub added: usize,
}

impl<'a> SetEdit for Add<'a> {
    ghost takes = { λ add members. Unit {0} };

    ghost makes = { λ limits first last members from now form. Adds limits first.words.now last.added members from now form };

    fn edit_set<B: BlockStore>(&mut self, set: &mut Members, store: &mut B) -> Result<(), Memory> {
        let before = set.len();
        add_words(set, store, self.words)?;
        self.added = set.len() - before;
        Ok(())
    }
}

/// `SADD key member..`: how many of the members are new.
pub fn sadd<B: BlockStore>(
    keyspace: &mut Keyspace<B>,
    at: &Ctx,
    key: &[u8],
    members: &[Word<'_>],
) -> Result<Reply, Memory>
    requires ready { Ready B.blocks keyspace.old at.now }
    ensures gives { Gives B.blocks keyspace.old keyspace.new at.now (sets.SAdd key.now members.now) result }
    ensures kept { KeepsOrRefuses B.blocks B.step (one_key at.now.db key.now) keyspace.old keyspace.new result }
    ensures forms { IfOk result (λ reply. Formed B.blocks (set_form at.now.db (visible B.blocks keyspace.old at.now) (sets.SAdd key.now members.now)) keyspace.old keyspace.new) }
{
    let alloc = keyspace.alloc();
    let found = seek(keyspace, at, key);
    let there = match set_sought(keyspace, at, key, found) {
        Look::Other => return Reply::refused(alloc, Refusal::WrongType),
        Look::Missing => None,
        Look::There(item) => Some(item),
    };
    let add = Add {
        words: members,
        added: 0,
    };
    let add = change_set(keyspace, at, key, found.sought, there, add)?;
    count_reply(alloc, add.added)
}
