//! Commands that store joins of sets.

ghost use Rattle.std.specs.Prelude.{◌≡◌, IfOk, OnOk};
ghost use Rattle.std.specs.FinMap.{len};
ghost use Rattle.held.specs.Calls.{AllAt};
ghost use Rattle.set_object.specs.Strings.{set_of};
ghost use Rattle.plain_model.specs.SetSteps.{has, may_sets, store_set};
ghost use Rattle.plain_model.specs.declared.set_command.SetCommand.TheVariants as sets;
ghost use Rattle.keyspace.specs.Scopes.{one_key};
ghost use Rattle.keyspace.specs.Forms.{Formed, IsNewSet, set_form};
ghost use Rattle.keyspace.specs.Commands.{Ready, KeepsTo, KeepsOrRefuses, visible};

use crate::adding::Add;
use crate::changing::change_set;
use crate::joining::{are_sets, join};
use crate::random::words_of;
use blocks::BlockStore;
use keyspace::{Keyspace, count_reply, drop_sought, seek};
use plain_model::{Ctx, Memory, Refusal, Reply, SetJoin, Word};

// A set of these words takes the place of whatever stands at a key; without a word nothing stands there. After want of memory
// nothing may stand there.
fn put_words<B: BlockStore>(
    keyspace: &mut Keyspace<B>,
    at: &Ctx,
    key: &[u8],
    words: &[Word<'_>],
) -> Result<usize, Memory>
    requires ready { Ready B.blocks keyspace.old at.now }
    ensures world { OnOk result (visible B.blocks keyspace.new at.now ≡ store_set (visible B.blocks keyspace.old at.now) key.now (set_of words.now)) }
    ensures counted { IfOk result (λ count. count ≡ len (set_of words.now)) }
    ensures new { OnOk result (AllAt (IsNewSet (has (set_of words.now)) keyspace.old.bases) keyspace.new.bases (B.blocks keyspace.new.store) at.now.db key.now) }
    ensures held { KeepsTo B.blocks B.step (one_key at.now.db key.now) keyspace.old keyspace.new }
{
    let gone = seek(keyspace, at, key);
    drop_sought(keyspace, at, key, gone.sought.hash);
    let found = seek(keyspace, at, key);
    let add = Add { words, added: 0 };
    let add = change_set(keyspace, at, key, found.sought, None, add)?;
    Ok(add.added)
}

/// `SINTERSTORE to key..`, `SUNIONSTORE` and `SDIFFSTORE`: the number of members of the join, which takes the place of whatever
/// stands at `to`, without a deadline. A key goes where the join has no member.
pub fn sjoin_store<B: BlockStore>(
    keyspace: &mut Keyspace<B>,
    at: &Ctx,
    how: SetJoin,
    to: &[u8],
    keys: &[Word<'_>],
) -> Result<Reply, Memory>
    requires ready { Ready B.blocks keyspace.old at.now }
    ensures gives { IfOk result (λ reply. may_sets keyspace.old.bases.seed (visible B.blocks keyspace.old at.now) (sets.SJoinStore how to.now keys.now) reply (visible B.blocks keyspace.new at.now)) }
    ensures kept { KeepsOrRefuses B.blocks B.step (one_key at.now.db to.now) keyspace.old keyspace.new result }
    ensures forms { IfOk result (λ reply. Formed B.blocks (set_form at.now.db (visible B.blocks keyspace.old at.now) (sets.SJoinStore how to.now keys.now)) keyspace.old keyspace.new) }
{
    let alloc = keyspace.alloc();
    if !are_sets(keyspace, at, keys) {
        return Reply::refused(alloc, Refusal::WrongType);
    }
    let names = join(keyspace, at, how, keys)?;
    let words = words_of(alloc, &names)?;
    let count = put_words(keyspace, at, to, &words)?;
    count_reply(alloc, count)
}
