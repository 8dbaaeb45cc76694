//! Commands that pick members by chance.

ghost use Rattle.std.specs.Prelude.{◌≡◌, ◌++◌, ◌≤◌, ◌<◌, ℕ, ℤ, Option, Some, IsSome, IfOk, OnOk, is_some, false, length};
ghost use Rattle.std.specs.List.{Contains};
ghost use Rattle.std.specs.FinMap.{len};
ghost use Rattle.blocks.specs.Blocks.{Changes, Served};
ghost use Rattle.rehash_dict.specs.Grown.{Grown};
ghost use Rattle.rehash_dict.specs.Keyed.{hash_of};
ghost use Rattle.set_object.specs.Members.{IsMembers, KeepsSettings, members, refs, form_of, tables};
ghost use Rattle.keyspace.specs.Insides.{SettledBelow, SettlesAt};
ghost use Rattle.set_object.specs.Items.{member_at};
ghost use Rattle.picking.specs.Elements.{elements_of};
ghost use Rattle.plain_world.specs.Picks.{picks_told, as_number};
ghost use Rattle.plain_model.specs.Scans as scans;
ghost use Rattle.plain_model.specs.SetSteps.{TellsMembers, drop_all, may_sets};
ghost use Rattle.plain_model.specs.declared.set_command.SetCommand.TheVariants as sets;
ghost use Rattle.keyspace.specs.Scopes.{one_key};
ghost use Rattle.keyspace.specs.Forms.{Formed, set_form};
ghost use Rattle.keyspace.specs.Commands.{Ready, KeepsOrRefuses, visible};
ghost use Rattle.cmd_sets.specs.Picked.{Pops};

use crate::changing::{change_set, set_sought};
use crate::edits::SetEdit;
use crate::look::set_at;
use crate::removing::drop_words;
use blocks::BlockStore;
use keyspace::{Keyspace, Look, bytes_of, seek};
use picking::{pick, pick_apart};
use plain_model::{Bytes, Ctx, Memory, Part, Parts, Refusal, Reply, Word};
use rand_core::utils::next_u64_via_u32;
use rand_pcg::Pcg32;
use set_object::Members;
use std::alloc::Global;

// The members of item numbers.
fn members_at<B: BlockStore>(
    alloc: Global,
    store: &B,
    set: &Members,
    items: &[usize],
) -> Result<Vec<Bytes>, Memory>
    requires sound { IsMembers (B.blocks store.now) set.now }
    requires real { (at : ℕ) → Contains items.now at → IsSome (member_at (B.blocks store.now) set.now at) }
    ensures { IfOk result (λ names. names.items ≡ elements_of (λ at. member_at (B.blocks store.now) set.now at) items.now) }
{
    let mut names = Vec::with_capacity(alloc, items.len())?;
    for item in items {
        names.push(bytes_of(alloc, set.at(store, *item))?)?;
    }
    Ok(names)
}

// Adds an array of members.
fn push_names(parts: &mut Parts, names: Vec<Bytes>) -> Result<(), Memory>
    ensures { OnOk result (parts.new ≡ parts.old ++ scans.listed names.items) }
{
    parts.push(Part::Array(names.len() as u64))?;
    for name in names {
        parts.push(Part::Bulk(name))?;
    }
    Ok(())
}

/// An array of members, told.
pub fn names_reply(alloc: Global, names: Vec<Bytes>) -> Result<Reply, Memory>
    ensures { IfOk result (λ reply. reply ≡ scans.listed names.items) }
{
    let mut parts = Parts::new(alloc);
    push_names(&mut parts, names)?;
    Ok(parts.into_reply())
}

// What was picked: an array where a number of them was asked for, else the one member, or null.
fn picks_reply(alloc: Global, counted: bool, names: Vec<Bytes>) -> Result<Reply, Memory>
    requires one { counted ≡ false → length names.items ≤ 1 }
    ensures { IfOk result (λ reply. (n : Option ℤ) → is_some n ≡ counted → reply ≡ picks_told scans.listed n names.items) }
{
    if counted {
        return names_reply(alloc, names);
    }
    let mut names = names;
    match names.pop() {
        None => Reply::null(alloc),
        Some(name) => Reply::bulk(alloc, name),
    }
}

// Members picked by chance, told.
fn random_reply<B: BlockStore>(
    alloc: Global,
    store: &B,
    set: &Members,
    n: Option<i64>,
    dice: &mut Pcg32,
) -> Result<Reply, Memory>
    requires sound { IsMembers (B.blocks store.now) set.now }
    ensures { IfOk result (λ reply. TellsMembers n (Some (members (B.blocks store.now) set.now)) reply) }
{
    let items = pick(alloc, set, n, dice)?;
    let names = members_at(alloc, store, set, &items)?;
    picks_reply(alloc, n.is_some(), names)
}

/// `SRANDMEMBER key [n]`: a member, or null where there is no set; with a number an array of at most so many different members, or
/// for a number below 0 of as many as it says, which may repeat.
pub fn srandmember<B: BlockStore>(
    keyspace: &Keyspace<B>,
    at: &Ctx,
    key: &[u8],
    n: Option<i64>,
    dice: &mut Pcg32,
) -> Result<Reply, Memory>
    requires ready { Ready B.blocks keyspace.now at.now }
    ensures gives { IfOk result (λ reply. may_sets keyspace.now.bases.seed (visible B.blocks keyspace.now at.now) (sets.SRandMember key.now n) reply (visible B.blocks keyspace.now at.now)) }
{
    let alloc = keyspace.alloc();
    match set_at(keyspace, at, key) {
        Look::Missing => {
            let none = Members::new(alloc, keyspace.limits(), keyspace.seed());
            random_reply(alloc, &keyspace.store, &none, n, dice)
        }
        Look::Other => Reply::refused(alloc, Refusal::WrongType),
        Look::There(set) => random_reply(alloc, &keyspace.store, set, n, dice),
    }
}

/// Members as words.
pub fn words_of<'a>(alloc: Global, names: &'a [Bytes]) -> Result<Vec<Word<'a>>, Memory>
    ensures { IfOk result (λ words. words.items ≡ names.now) }
{
    let mut words = Vec::with_capacity(alloc, names.len())?;
    for name in names {
        words.push(Word::new(name.as_slice()))?;
    }
    Ok(words)
}

// Takes these members out of a set.
fn drop_names<B: BlockStore>(
    alloc: Global,
    set: &mut Members,
    store: &mut B,
    names: &[Bytes],
) -> Result<(), Memory>
    requires { IsMembers (B.blocks store.old) set.old }
    ensures sound { IsMembers (B.blocks store.new) set.new }
    ensures settings { KeepsSettings set.old set.new }
    ensures grown { Grown (hash_of set.old.seed) (tables (B.blocks store.old) set.old) (tables (B.blocks store.new) set.new) }
    ensures settles { OnOk result
        ((most : ℕ) → SettledBelow most (len (members (B.blocks store.old) set.old)) (tables (B.blocks store.old) set.old)
        → SettledBelow most (len (members (B.blocks store.new) set.new)) (tables (B.blocks store.new) set.new)) }
    ensures members { OnOk result (members (B.blocks store.new) set.new ≡ drop_all (members (B.blocks store.old) set.old) names.now) }
    ensures form { OnOk result (0 < len (members (B.blocks store.new) set.new) → form_of set.new ≡ form_of set.old) }
    ensures changes { Changes (B.blocks store.old) (B.blocks store.new) (refs set.old) (refs set.new) }
    ensures served { Served B.step store.old store.new }
{
    let words = words_of(alloc, names)?;
    drop_words(set, store, &words)
}

/// Members to be picked by chance and taken out of a set: one, or at most so many.
#[derive(Drop)]
pub struct Pop {
    pub alloc: Global,
    pub n: Option<u64>,
    pub dice: Pcg32,
    /// Those that were taken out.
    pub gone: Vec<Bytes>,
}

impl SetEdit for Pop {
    ghost takes = { λ edit members. Unit {0} };

    ghost makes = { λ limits first last members from now form. Pops (as_number first.n) last.gone.items members from now form };

    fn edit_set<B: BlockStore>(&mut self, set: &mut Members, store: &mut B) -> Result<(), Memory> {
        let most = self.n.unwrap_or(1) as usize;
        let items = pick_apart(self.alloc, set, most, &mut self.dice)?;
        let gone = members_at(self.alloc, store, set, &items)?;
        drop_names(self.alloc, set, store, &gone)?;
        self.gone = gone;
        Ok(())
    }
}

/// `SPOP key [n]`: a member that was taken out, or null where there is no set; with a number an array of at most so many. The key
/// goes with its last member.
pub fn spop<B: BlockStore>(
    keyspace: &mut Keyspace<B>,
    at: &Ctx,
    key: &[u8],
    n: Option<u64>,
    dice: &mut Pcg32,
) -> Result<Reply, Memory>
    requires ready { Ready B.blocks keyspace.old at.now }
    ensures gives { IfOk result (λ reply. may_sets keyspace.old.bases.seed (visible B.blocks keyspace.old at.now) (sets.SPop key.now n) reply (visible B.blocks keyspace.new at.now)) }
    ensures kept { KeepsOrRefuses B.blocks B.step (one_key at.now.db key.now) keyspace.old keyspace.new result }
    ensures settles { IfOk result (λ reply. SettlesAt B.blocks keyspace.old keyspace.new at.now key.now) }
    ensures forms { IfOk result (λ reply. Formed B.blocks (set_form at.now.db (visible B.blocks keyspace.old at.now) (sets.SPop key.now n)) keyspace.old keyspace.new) }
{
    let alloc = keyspace.alloc();
    let found = seek(keyspace, at, key);
    let item = match set_sought(keyspace, at, key, found) {
        Look::Other => return Reply::refused(alloc, Refusal::WrongType),
        Look::Missing => return picks_reply(alloc, n.is_some(), Vec::new(alloc)),
        Look::There(item) => item,
    };
    let pop = Pop {
        alloc,
        n,
        dice: Pcg32::new(next_u64_via_u32(dice), 54),
        gone: Vec::new(alloc),
    };
    let pop = change_set(keyspace, at, key, found.sought, Some(item), pop)?;
    picks_reply(alloc, n.is_some(), pop.gone)
}
