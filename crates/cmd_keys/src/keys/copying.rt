//! The command that copies keys.

ghost use Rattle.std.specs.Prelude.{◌≡◌, ◌<◌, ◌==◌, ◌&&◌, not, bytes_eq, Some, IfOk, OnOk, OnErr, is_some, true};
ghost use Rattle.plain_world.specs.Worlds.{Entry, World, look, put_in};
ghost use Rattle.plain_model.specs.KeySteps.{or_selected};
ghost use Rattle.plain_model.specs.declared.keys.KeyCommand.TheVariants as commands;
ghost use Rattle.blocks.specs.Blocks.{Served};
ghost use Rattle.rehash_dict.specs.Grown.{Grown};
ghost use Rattle.rehash_dict.specs.Keyed.{hash_of};
ghost use Rattle.stored.specs.Owning.{no_tables};
ghost use Rattle.keyspace.specs.Values.{value_of, value_refs, value_tables, IsSound};
ghost use Rattle.keyspace.specs.Databases.{means, SameSettings};
ghost use Rattle.keyspace.specs.Sound.{Sound, SoundBeside};
ghost use Rattle.keyspace.specs.Scopes.{one_key, two_keys, number_or, Within};
ghost use Rattle.keyspace.specs.Insides.{Insides};
ghost use Rattle.keyspace.specs.Forms.{AsAt, HasForm, Formed, key_form};
ghost use Rattle.held.specs.Calls.{StandsAt, HasUntil, IsDeadline};
ghost use Rattle.keyspace.specs.Commands.{Ready, KeepsTo, KeepsOrRefuses, visible};
ghost use Rattle.cmd_keys.specs.Found.{Gives, IsDatabase};

use crate::keys::look::{count_reply, is_there};
use blocks::BlockStore;
use keyspace::{Keyspace, Value, seek};
use plain_model::{CopyOptions, Ctx, Memory, Refusal, Reply};

// Another value that means what stands at a key, whose item number was sought.
fn copy_value<B: BlockStore>(
    keyspace: &mut Keyspace<B>,
    at: &Ctx,
    key: &[u8],
    item: usize,
) -> Result<Value, Memory>
    requires ready { Ready B.blocks keyspace.old at.now }
    requires there { StandsAt keyspace.old.bases (B.blocks keyspace.old.store) at.now.db key.now at.now.moment item }
    ensures world { means at.now.db keyspace.new.bases (B.blocks keyspace.new.store) ≡ means at.now.db keyspace.old.bases (B.blocks keyspace.old.store) }
    ensures value { IfOk result (λ value. (entry : Entry) → look (visible B.blocks keyspace.old at.now) key.now ≡ Some entry → value_of (B.blocks keyspace.new.store) value ≡ entry.value) }
    ensures sound { IfOk result (λ value. SoundBeside keyspace.new.bases (B.blocks keyspace.new.store) (value_refs (B.blocks keyspace.new.store) value)) }
    ensures kind { IfOk result (λ value. IsSound keyspace.new.bases.limits keyspace.new.bases.seed (B.blocks keyspace.new.store) value) }
    ensures err { OnErr result (Sound keyspace.new.bases (B.blocks keyspace.new.store)) }
    ensures served { Served B.step keyspace.old.store keyspace.new.store }
    ensures within { Within (one_key at.now.db key.now) keyspace.old.bases keyspace.new.bases (B.blocks keyspace.old.store) (B.blocks keyspace.new.store) }
    ensures insides { Insides (one_key at.now.db key.now) keyspace.old.bases keyspace.new.bases (B.blocks keyspace.old.store) (B.blocks keyspace.new.store) }
    ensures grown { IfOk result (λ value. Grown (hash_of keyspace.new.bases.seed) no_tables (value_tables (B.blocks keyspace.new.store) value)) }
    ensures settings { SameSettings keyspace.old.bases keyspace.new.bases }
    ensures form { IfOk result (λ value. HasForm (AsAt at.now.db key.now) keyspace.old.bases (B.blocks keyspace.old.store) value) }
    ensures forms { IfOk result (λ value. Formed B.blocks (AsAt at.now.db key.now) keyspace.old keyspace.new) }
{
    let _ = key;
    let lifted = keyspace.lift_at(at.db, item);
    let alloc = keyspace.alloc();
    let limits = keyspace.limits();
    let copied = lifted.value.copy(alloc, limits, &mut keyspace.store);
    keyspace.lower(lifted);
    match copied {
        Ok(value) => Ok(value),
        Err(error) => Err(error),
    }
}

// What stands at a key, whose item number and deadline were sought, is copied to a key of a database, with that deadline.
fn copy_to<B: BlockStore>(
    keyspace: &mut Keyspace<B>,
    at: &Ctx,
    from: &[u8],
    item: usize,
    deadline: Option<u64>,
    number: usize,
    to: &[u8],
) -> Result<(), Memory>
    requires ready { Ready B.blocks keyspace.old at.now }
    requires there { StandsAt keyspace.old.bases (B.blocks keyspace.old.store) at.now.db from.now at.now.moment item }
    requires until { HasUntil (visible B.blocks keyspace.old at.now) from.now deadline }
    requires latest { IsDeadline deadline }
    requires number { number < 16 }
    ensures world { OnOk result
        ((entry : Entry) → look (visible B.blocks keyspace.old at.now) from.now ≡ Some entry
        → visible B.blocks keyspace.new at.now ≡ put_in (visible B.blocks keyspace.old at.now) number to.now entry) }
    ensures held { KeepsTo B.blocks B.step (two_keys at.now.db from.now number to.now) keyspace.old keyspace.new }
    ensures forms { OnOk result (Formed B.blocks (AsAt at.now.db from.now) keyspace.old keyspace.new) }
{
    match copy_value(keyspace, at, from, item) {
        Err(error) => Err(error),
        Ok(value) => keyspace.put(number, to, value, deadline),
    }
}

// The database that is copied to.
fn number_of(at: &Ctx, db: Option<usize>) -> usize
    requires selected { at.now.db < 16 }
    requires other { IsDatabase db }
    ensures number { (world : World) → world.selected ≡ at.now.db → or_selected world db ≡ result }
    ensures same { number_or at.now.db db ≡ result }
    ensures within { result < 16 }
{
    match db {
        None => at.db,
        Some(number) => number,
    }
}

// Whether both keys are one key of one database.
fn is_same_place(at: &Ctx, number: usize, from: &[u8], to: &[u8]) -> bool
    ensures { result ≡ ((number == at.now.db) && bytes_eq from.now to.now) }
{
    number == at.db && from == to
}

// Whether something stands at a key that isn't to be replaced.
fn is_taken<B: BlockStore>(keyspace: &Keyspace<B>, at: &Ctx, key: &[u8], replace: bool) -> bool
    requires ready { Ready B.blocks keyspace.now at.now }
    ensures { result ≡ (is_some (look (visible B.blocks keyspace.now at.now) key.now) && not replace) }
{
    let there = is_there(keyspace, at, key);
    there && !replace
}

/// `COPY from to [DB db] [REPLACE]`: 1, or 0 where nothing stands at the first key, or something at the other one that isn't
/// to be replaced. The keys or the databases have to differ.
pub fn copy<B: BlockStore>(
    keyspace: &mut Keyspace<B>,
    at: &Ctx,
    from: &[u8],
    to: &[u8],
    options: CopyOptions,
) -> Result<Reply, Memory>
    requires ready { Ready B.blocks keyspace.old at.now }
    requires database { IsDatabase options.db }
    ensures gives { Gives B.blocks keyspace.old keyspace.new at.now (commands.Copy from.now to.now options) result }
    ensures kept { KeepsOrRefuses B.blocks B.step (two_keys at.now.db from.now (number_or at.now.db options.db) to.now) keyspace.old keyspace.new result }
    ensures forms { IfOk result (λ reply. Formed B.blocks (key_form at.now.db (visible B.blocks keyspace.old at.now) (commands.Copy from.now to.now options)) keyspace.old keyspace.new) }
{
    let alloc = keyspace.alloc();
    let number = number_of(at, options.db);
    if is_same_place(at, number, from, to) {
        return Reply::refused(alloc, Refusal::SameSourceAndDestination);
    }
    let found = seek(keyspace, at, from);
    match found.there {
        None => count_reply(alloc, 0),
        Some(item) => {
            let other = Ctx {
                db: number,
                moment: at.moment,
            };
            if is_taken(keyspace, &other, to, options.replace) {
                return count_reply(alloc, 0);
            }
            copy_to(keyspace, at, from, item, found.deadline, number, to)?;
            count_reply(alloc, 1)
        }
    }
}
