//! The command that takes members out of a sorted set.

ghost use Rattle.std.specs.Prelude.{◌≡◌, ℕ, IfOk, OnOk};
ghost use Rattle.std.specs.FinMap.{remove, len};
ghost use Rattle.blocks.specs.Blocks.{Changes, Served};
ghost use Rattle.rehash_dict.specs.Grown.{Grown};
ghost use Rattle.rehash_dict.specs.Keyed.{hash_of};
ghost use Rattle.zset_object.specs.Scored.{IsScored, KeepsSettings, scores, form_of, refs, tables};
ghost use Rattle.plain_model.specs.ZsetSteps.{without_members};
ghost use Rattle.plain_model.specs.declared.zset_command.ZsetCommand.TheVariants as zsets;
ghost use Rattle.keyspace.specs.Scopes.{one_key};
ghost use Rattle.keyspace.specs.Insides.{SettledBelow, SettlesAt};
ghost use Rattle.keyspace.specs.Forms.{Formed, zset_form};
ghost use Rattle.keyspace.specs.Commands.{Ready, KeepsOrRefuses, visible};
ghost use Rattle.cmd_zsets.specs.Found.{Gives};
ghost use Rattle.cmd_zsets.specs.Written.{Removes};

use crate::changing::{change_zset, zset_sought};
use crate::edits::ZsetEdit;
use blocks::BlockStore;
use keyspace::{Keyspace, Look, count_reply, seek};
use plain_model::{Ctx, Memory, Refusal, Reply, Word};
use zset_object::Scored;

// Takes a member out, where it is there.
fn take_out<B: BlockStore>(zset: &mut Scored, store: &mut B, member: &[u8]) -> Result<(), Memory>
    requires { IsScored (B.blocks store.old) zset.old }
    ensures sound { IsScored (B.blocks store.new) zset.new }
    ensures settings { KeepsSettings zset.old zset.new }
    ensures grown { Grown (hash_of zset.old.seed) (tables (B.blocks store.old) zset.old) (tables (B.blocks store.new) zset.new) }
    ensures settles { OnOk result
        ((most : ℕ) → SettledBelow most (len (scores (B.blocks store.old) zset.old)) (tables (B.blocks store.old) zset.old)
        → SettledBelow most (len (scores (B.blocks store.new) zset.new)) (tables (B.blocks store.new) zset.new)) }
    ensures is { OnOk result (scores (B.blocks store.new) zset.new ≡ remove (scores (B.blocks store.old) zset.old) member.now) }
    ensures form { form_of zset.new ≡ form_of zset.old }
    ensures changes { Changes (B.blocks store.old) (B.blocks store.new) (refs zset.old) (refs zset.new) }
    ensures served { Served B.step store.old store.new }
{
    zset.remove(store, member)?;
    Ok(())
}

// Takes members out, one after the other.
fn take_each<B: BlockStore>(
    zset: &mut Scored,
    store: &mut B,
    members: &[Word<'_>],
) -> Result<(), Memory>
    requires { IsScored (B.blocks store.old) zset.old }
    ensures sound { IsScored (B.blocks store.new) zset.new }
    ensures settings { KeepsSettings zset.old zset.new }
    ensures grown { Grown (hash_of zset.old.seed) (tables (B.blocks store.old) zset.old) (tables (B.blocks store.new) zset.new) }
    ensures settles { OnOk result
        ((most : ℕ) → SettledBelow most (len (scores (B.blocks store.old) zset.old)) (tables (B.blocks store.old) zset.old)
        → SettledBelow most (len (scores (B.blocks store.new) zset.new)) (tables (B.blocks store.new) zset.new)) }
    ensures is { OnOk result (scores (B.blocks store.new) zset.new ≡ without_members (scores (B.blocks store.old) zset.old) members.now) }
    ensures form { form_of zset.new ≡ form_of zset.old }
    ensures changes { Changes (B.blocks store.old) (B.blocks store.new) (refs zset.old) (refs zset.new) }
    ensures served { Served B.step store.old store.new }
{
    for member in members {
        take_out(zset, store, member.as_slice())?;
    }
    Ok(())
}

/// Members to be taken out of a sorted set, and how many of them were there.
#[derive(Drop)]
pub struct RemoveAll<'a> {
    pub members: &'a [Word<'a>],
    pub gone: usize,
}

impl<'a> ZsetEdit for RemoveAll<'a> {
    ghost takes = { λ remove scores. Unit {0} };

    ghost makes = { λ first last limits old from new form. Removes first.members.now last.gone old from new form };

    fn edit_zset<B: BlockStore>(&mut self, zset: &mut Scored, store: &mut B) -> Result<(), Memory> {
        let before = zset.len();
        take_each(zset, store, self.members)?;
        self.gone = before.saturating_sub(zset.len());
        Ok(())
    }
}

/// `ZREM key member..`: how many members were there. The key goes with its last member.
#[tactic(auto, using(crate::proofs::Looking::refused_other))]
pub fn zrem<B: BlockStore>(
    keyspace: &mut Keyspace<B>,
    at: &Ctx,
    key: &[u8],
    members: &[Word<'_>],
) -> Result<Reply, Memory>
    requires ready { Ready B.blocks keyspace.old at.now }
    ensures gives { Gives B.blocks keyspace.old keyspace.new at.now (zsets.ZRem key.now members.now) result }
    ensures kept { KeepsOrRefuses B.blocks B.step (one_key at.now.db key.now) keyspace.old keyspace.new result }
    ensures settles { IfOk result (λ reply. SettlesAt B.blocks keyspace.old keyspace.new at.now key.now) }
    ensures forms { IfOk result (λ reply. Formed B.blocks (zset_form at.now.db (visible B.blocks keyspace.old at.now) (zsets.ZRem key.now members.now)) keyspace.old keyspace.new) }
{
    let alloc = keyspace.alloc();
    let found = seek(keyspace, at, key);
    let item = match zset_sought(keyspace, at, key, found) {
        Look::Other => return Reply::refused(alloc, Refusal::WrongType),
        Look::Missing => return count_reply(alloc, 0),
        Look::There(item) => item,
    };
    let remove = RemoveAll { members, gone: 0 };
    let remove = change_zset(keyspace, at, key, found.sought, Some(item), remove)?;
    count_reply(alloc, remove.gone)
}
