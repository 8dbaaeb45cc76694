//! Commands that set values in a hash.

ghost use Rattle.std.specs.Prelude.{◌≡◌, ℕ, [], ◌∷◌, IfOk, OnOk};
ghost use Rattle.std.specs.FinMap.{insert};
ghost use Rattle.blocks.specs.Blocks.{Changes, Served};
ghost use Rattle.hash_object.specs.Maps.{IsRisen};
ghost use Rattle.rehash_dict.specs.Grown.{Grown};
ghost use Rattle.rehash_dict.specs.Keyed.{hash_of};
ghost use Rattle.hash_object.specs.Fields.{IsFields, KeepsSettings, fields, form_of, refs, tables};
ghost use Rattle.held.specs.Calls.{Seeks};
ghost use Rattle.plain_model.specs.HashSteps.{set_all};
ghost use Rattle.plain_model.specs.declared.hash_command.HashCommand.TheVariants as hashes;
ghost use Rattle.keyspace.specs.Scopes.{one_key};
ghost use Rattle.keyspace.specs.Forms.{Formed, RisesBy, hash_form, hash_to};
ghost use Rattle.keyspace.specs.Commands.{Ready, KeepsTo, KeepsOrRefuses, visible};
ghost use Rattle.cmd_hashes.specs.Found.{Gives};
ghost use Rattle.cmd_hashes.specs.Changed.{IsHashThere};
ghost use Rattle.cmd_hashes.specs.Set.{IsSet, Sets};

use crate::changing::{change_hash, hash_sought};
use crate::edits::HashEdit;
use crate::there::has_field;
use blocks::BlockStore;
use hash_object::Fields;
use keyspace::{Keyspace, Look, Sought, count_reply, seek};
use plain_model::{Ctx, Line, Memory, Refusal, Reply, Word};

// Gives a field its value.
#[tactic(auto, using(crate::proofs::Rests::left_sound, crate::proofs::Rests::left_changes, crate::proofs::Rests::left_settings, crate::proofs::Rests::left_grown))]
fn set_one<B: BlockStore>(
    hash: &mut Fields,
    store: &mut B,
    field: &[u8],
    value: &[u8],
) -> Result<(), Memory>
    requires { IsFields (B.blocks store.old) hash.old }
    ensures sound { IsFields (B.blocks store.new) hash.new }
    ensures settings { KeepsSettings hash.old hash.new }
    ensures grown { Grown (hash_of hash.old.seed) (tables (B.blocks store.old) hash.old) (tables (B.blocks store.new) hash.new) }
    ensures is { OnOk result (fields (B.blocks store.new) hash.new ≡ insert (fields (B.blocks store.old) hash.old) field.now value.now) }
    ensures risen { OnOk result (IsRisen hash.old.limits (form_of hash.old) (insert (fields (B.blocks store.old) hash.old) field.now value.now) (form_of hash.new)) }
    ensures changes { Changes (B.blocks store.old) (B.blocks store.new) (refs hash.old) (refs hash.new) }
    ensures served { Served B.step store.old store.new }
{
    hash.set(store, field, value)?;
    Ok(())
}

// Gives each field its value, one after the other.
fn set_each<B: BlockStore>(
    hash: &mut Fields,
    store: &mut B,
    pairs: &[(Word<'_>, Word<'_>)],
) -> Result<(), Memory>
    requires { IsFields (B.blocks store.old) hash.old }
    ensures sound { IsFields (B.blocks store.new) hash.new }
    ensures settings { KeepsSettings hash.old hash.new }
    ensures grown { Grown (hash_of hash.old.seed) (tables (B.blocks store.old) hash.old) (tables (B.blocks store.new) hash.new) }
    ensures is { OnOk result (fields (B.blocks store.new) hash.new ≡ set_all (fields (B.blocks store.old) hash.old) pairs.now) }
    ensures risen { OnOk result (RisesBy hash.old.limits (form_of hash.old) (fields (B.blocks store.old) hash.old) pairs.now (form_of hash.new)) }
    ensures changes { Changes (B.blocks store.old) (B.blocks store.new) (refs hash.old) (refs hash.new) }
    ensures served { Served B.step store.old store.new }
{
    for pair in pairs {
        set_one(hash, store, pair.0.as_slice(), pair.1.as_slice())?;
    }
    Ok(())
}

/// Values to be set in a hash, and how many fields are new then.
#[derive(Drop)]
pub struct SetAll<'a> {
    pub pairs: &'a [(Word<'a>, Word<'a>)],
    pub fresh: usize,
}

impl<'a> HashEdit for SetAll<'a> {
    ghost takes = { λ set fields. Unit {0} };

    ghost makes = { λ first last limits old from new form. Sets first.pairs.now last.fresh limits old from new form };

    fn edit_hash<B: BlockStore>(&mut self, hash: &mut Fields, store: &mut B) -> Result<(), Memory> {
        let before = hash.len();
        set_each(hash, store, self.pairs)?;
        self.fresh = hash.len().saturating_sub(before);
        Ok(())
    }
}

/// Sets values in the hash at a key that was sought, by its item number, or where nothing stands in a new one: the number of new
/// fields.
pub fn set_at<B: BlockStore>(
    keyspace: &mut Keyspace<B>,
    at: &Ctx,
    key: &[u8],
    sought: Sought,
    there: Option<usize>,
    pairs: &[(Word<'_>, Word<'_>)],
) -> Result<usize, Memory>
    requires ready { Ready B.blocks keyspace.old at.now }
    requires seeks { Seeks keyspace.old.bases (B.blocks keyspace.old.store) at.now.db key.now sought }
    requires there { IsHashThere (visible B.blocks keyspace.old at.now) keyspace.old.bases (B.blocks keyspace.old.store) at.now.db key.now at.now.moment there }
    ensures set { IfOk result (λ fresh. IsSet (visible B.blocks keyspace.old at.now) key.now pairs.now fresh (visible B.blocks keyspace.new at.now)) }
    ensures held { KeepsTo B.blocks B.step (one_key at.now.db key.now) keyspace.old keyspace.new }
    ensures forms { IfOk result (λ fresh. Formed B.blocks (hash_to at.now.db (visible B.blocks keyspace.old at.now) key.now pairs.now) keyspace.old keyspace.new) }
{
    let set = SetAll { pairs, fresh: 0 };
    let set = change_hash(keyspace, at, key, sought, there, set)?;
    Ok(set.fresh)
}

/// `HSET key field value..`: how many fields are new.
#[tactic(auto, using(crate::proofs::Looking::refused_other))]
pub fn hset<B: BlockStore>(
    keyspace: &mut Keyspace<B>,
    at: &Ctx,
    key: &[u8],
    pairs: &[(Word<'_>, Word<'_>)],
) -> Result<Reply, Memory>
    requires ready { Ready B.blocks keyspace.old at.now }
    ensures gives { Gives B.blocks keyspace.old keyspace.new at.now (hashes.HSet key.now pairs.now) result }
    ensures kept { KeepsOrRefuses B.blocks B.step (one_key at.now.db key.now) keyspace.old keyspace.new result }
    ensures forms { IfOk result (λ reply. Formed B.blocks (hash_form at.now.db (visible B.blocks keyspace.old at.now) (hashes.HSet key.now pairs.now)) keyspace.old keyspace.new) }
{
    let alloc = keyspace.alloc();
    let found = seek(keyspace, at, key);
    let there = match hash_sought(keyspace, at, key, found) {
        Look::Other => return Reply::refused(alloc, Refusal::WrongType),
        Look::Missing => None,
        Look::There(item) => Some(item),
    };
    let fresh = set_at(keyspace, at, key, found.sought, there, pairs)?;
    count_reply(alloc, fresh)
}

/// `HMSET key field value..`: OK.
#[tactic(auto, using(crate::proofs::Looking::refused_other))]
pub fn hmset<B: BlockStore>(
    keyspace: &mut Keyspace<B>,
    at: &Ctx,
    key: &[u8],
    pairs: &[(Word<'_>, Word<'_>)],
) -> Result<Reply, Memory>
    requires ready { Ready B.blocks keyspace.old at.now }
    ensures gives { Gives B.blocks keyspace.old keyspace.new at.now (hashes.HMSet key.now pairs.now) result }
    ensures kept { KeepsOrRefuses B.blocks B.step (one_key at.now.db key.now) keyspace.old keyspace.new result }
    ensures forms { IfOk result (λ reply. Formed B.blocks (hash_form at.now.db (visible B.blocks keyspace.old at.now) (hashes.HMSet key.now pairs.now)) keyspace.old keyspace.new) }
{
    let alloc = keyspace.alloc();
    let found = seek(keyspace, at, key);
    let there = match hash_sought(keyspace, at, key, found) {
        Look::Other => return Reply::refused(alloc, Refusal::WrongType),
        Look::Missing => None,
        Look::There(item) => Some(item),
    };
    set_at(keyspace, at, key, found.sought, there, pairs)?;
    Reply::simple(alloc, Line::ok())
}

/// Sets one value in the hash at a key that was sought, by its item number, or where nothing stands in a new one.
pub fn set_field_at<B: BlockStore>(
    keyspace: &mut Keyspace<B>,
    at: &Ctx,
    key: &[u8],
    sought: Sought,
    there: Option<usize>,
    field: &[u8],
    value: &[u8],
) -> Result<(), Memory>
    requires ready { Ready B.blocks keyspace.old at.now }
    requires seeks { Seeks keyspace.old.bases (B.blocks keyspace.old.store) at.now.db key.now sought }
    requires there { IsHashThere (visible B.blocks keyspace.old at.now) keyspace.old.bases (B.blocks keyspace.old.store) at.now.db key.now at.now.moment there }
    ensures set { OnOk result ((fresh : ℕ) × IsSet (visible B.blocks keyspace.old at.now) key.now ((field.now, value.now) ∷ []) fresh (visible B.blocks keyspace.new at.now)) }
    ensures held { KeepsTo B.blocks B.step (one_key at.now.db key.now) keyspace.old keyspace.new }
    ensures forms { OnOk result (Formed B.blocks (hash_to at.now.db (visible B.blocks keyspace.old at.now) key.now ((field.now, value.now) ∷ [])) keyspace.old keyspace.new) }
{
    let pair = (Word::new(field), Word::new(value));
    set_at(keyspace, at, key, sought, there, &[pair])?;
    Ok(())
}

/// `HSETNX key field value`: 1, or 0 where the field is there, whose value stays.
#[tactic(auto, using(crate::proofs::Looking::refused_other))]
pub fn hsetnx<B: BlockStore>(
    keyspace: &mut Keyspace<B>,
    at: &Ctx,
    key: &[u8],
    field: &[u8],
    value: &[u8],
) -> Result<Reply, Memory>
    requires ready { Ready B.blocks keyspace.old at.now }
    ensures gives { Gives B.blocks keyspace.old keyspace.new at.now (hashes.HSetNx key.now field.now value.now) result }
    ensures kept { KeepsOrRefuses B.blocks B.step (one_key at.now.db key.now) keyspace.old keyspace.new result }
    ensures forms { IfOk result (λ reply. Formed B.blocks (hash_form at.now.db (visible B.blocks keyspace.old at.now) (hashes.HSetNx key.now field.now value.now)) keyspace.old keyspace.new) }
{
    let alloc = keyspace.alloc();
    let found = seek(keyspace, at, key);
    let there = match hash_sought(keyspace, at, key, found) {
        Look::Other => return Reply::refused(alloc, Refusal::WrongType),
        Look::Missing => None,
        Look::There(item) => Some(item),
    };
    if has_field(keyspace, at, key, there, field) {
        return Reply::number(alloc, 0);
    }
    set_field_at(keyspace, at, key, found.sought, there, field, value)?;
    Reply::number(alloc, 1)
}
