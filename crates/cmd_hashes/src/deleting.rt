//! The command that takes fields out of a hash.

ghost use Rattle.std.specs.Prelude.{◌≡◌, ℕ, IfOk, OnOk};
ghost use Rattle.std.specs.FinMap.{remove, len};
ghost use Rattle.blocks.specs.Blocks.{Changes, Served};
ghost use Rattle.rehash_dict.specs.Grown.{Grown};
ghost use Rattle.rehash_dict.specs.Keyed.{hash_of};
ghost use Rattle.hash_object.specs.Fields.{IsFields, KeepsSettings, fields, form_of, refs, tables};
ghost use Rattle.plain_model.specs.HashSteps.{unset_all};
ghost use Rattle.plain_model.specs.declared.hash_command.HashCommand.TheVariants as hashes;
ghost use Rattle.keyspace.specs.Scopes.{one_key};
ghost use Rattle.keyspace.specs.Insides.{SettledBelow, SettlesAt};
ghost use Rattle.keyspace.specs.Forms.{Formed, hash_form};
ghost use Rattle.keyspace.specs.Commands.{Ready, KeepsOrRefuses, visible};
ghost use Rattle.cmd_hashes.specs.Found.{Gives};
ghost use Rattle.cmd_hashes.specs.Set.{Unsets};

use crate::changing::{change_hash, hash_sought};
use crate::edits::HashEdit;
use blocks::BlockStore;
use hash_object::Fields;
use keyspace::{Keyspace, Look, count_reply, seek};
use plain_model::{Ctx, Memory, Refusal, Reply, Word};

// Takes a field out, where it is there.
fn unset_one<B: BlockStore>(hash: &mut Fields, store: &mut B, field: &[u8]) -> Result<(), Memory>
    requires { IsFields (B.blocks store.old) hash.old }
    ensures sound { IsFields (B.blocks store.new) hash.new }
    ensures settings { KeepsSettings hash.old hash.new }
    ensures grown { Grown (hash_of hash.old.seed) (tables (B.blocks store.old) hash.old) (tables (B.blocks store.new) hash.new) }
    ensures settles { OnOk result
        ((most : ℕ) → SettledBelow most (len (fields (B.blocks store.old) hash.old)) (tables (B.blocks store.old) hash.old)
        → SettledBelow most (len (fields (B.blocks store.new) hash.new)) (tables (B.blocks store.new) hash.new)) }
    ensures is { OnOk result (fields (B.blocks store.new) hash.new ≡ remove (fields (B.blocks store.old) hash.old) field.now) }
    ensures form { form_of hash.new ≡ form_of hash.old }
    ensures changes { Changes (B.blocks store.old) (B.blocks store.new) (refs hash.old) (refs hash.new) }
    ensures served { Served B.step store.old store.new }
{
    hash.remove(store, field)?;
    Ok(())
}

// Takes fields out, one after the other.
fn unset_each<B: BlockStore>(
    hash: &mut Fields,
    store: &mut B,
    names: &[Word<'_>],
) -> Result<(), Memory>
    requires { IsFields (B.blocks store.old) hash.old }
    ensures sound { IsFields (B.blocks store.new) hash.new }
    ensures settings { KeepsSettings hash.old hash.new }
    ensures grown { Grown (hash_of hash.old.seed) (tables (B.blocks store.old) hash.old) (tables (B.blocks store.new) hash.new) }
    ensures settles { OnOk result
        ((most : ℕ) → SettledBelow most (len (fields (B.blocks store.old) hash.old)) (tables (B.blocks store.old) hash.old)
        → SettledBelow most (len (fields (B.blocks store.new) hash.new)) (tables (B.blocks store.new) hash.new)) }
    ensures is { OnOk result (fields (B.blocks store.new) hash.new ≡ unset_all (fields (B.blocks store.old) hash.old) names.now) }
    ensures form { form_of hash.new ≡ form_of hash.old }
    ensures changes { Changes (B.blocks store.old) (B.blocks store.new) (refs hash.old) (refs hash.new) }
    ensures served { Served B.step store.old store.new }
{
    for name in names {
        unset_one(hash, store, name.as_slice())?;
    }
    Ok(())
}

/// Fields to be taken out of a hash, and how many of them were there.
#[derive(Drop)]
pub struct RemoveAll<'a> {
    pub names: &'a [Word<'a>],
    pub gone: usize,
}

impl<'a> HashEdit for RemoveAll<'a> {
    ghost takes = { λ remove fields. Unit {0} };

    ghost makes = { λ first last limits old from new form. Unsets first.names.now last.gone old from new form };

    fn edit_hash<B: BlockStore>(&mut self, hash: &mut Fields, store: &mut B) -> Result<(), Memory> {
        let before = hash.len();
        unset_each(hash, store, self.names)?;
        self.gone = before.saturating_sub(hash.len());
        Ok(())
    }
}

/// `HDEL key field..`: how many fields were there. The key goes with its last field.
#[tactic(auto, using(crate::proofs::Looking::refused_other))]
pub fn hdel<B: BlockStore>(
    keyspace: &mut Keyspace<B>,
    at: &Ctx,
    key: &[u8],
    fields: &[Word<'_>],
) -> Result<Reply, Memory>
    requires ready { Ready B.blocks keyspace.old at.now }
    ensures gives { Gives B.blocks keyspace.old keyspace.new at.now (hashes.HDel key.now fields.now) result }
    ensures kept { KeepsOrRefuses B.blocks B.step (one_key at.now.db key.now) keyspace.old keyspace.new result }
    ensures settles { IfOk result (λ reply. SettlesAt B.blocks keyspace.old keyspace.new at.now key.now) }
    ensures forms { IfOk result (λ reply. Formed B.blocks (hash_form at.now.db (visible B.blocks keyspace.old at.now) (hashes.HDel key.now fields.now)) keyspace.old keyspace.new) }
{
    let alloc = keyspace.alloc();
    let found = seek(keyspace, at, key);
    let item = match hash_sought(keyspace, at, key, found) {
        Look::Other => return Reply::refused(alloc, Refusal::WrongType),
        Look::Missing => return count_reply(alloc, 0),
        Look::There(item) => item,
    };
    let remove = RemoveAll {
        names: fields,
        gone: 0,
    };
    let remove = change_hash(keyspace, at, key, found.sought, Some(item), remove)?;
    count_reply(alloc, remove.gone)
}
