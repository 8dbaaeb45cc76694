//! Commands that list keys: all of them, or a page of a scan.

ghost use Rattle.std.specs.Prelude.{◌≡◌, ◌<◌, List, ℕ, IfOk, OnOk, IfSome, IfNone};
ghost use Rattle.plain_model.specs.Scans.{keys_sought};
ghost use Rattle.plain_model.specs.KeySteps.{AreKeysLike, IsScanned, type_name};
ghost use Rattle.keyspace.specs.Values.{value_of};
ghost use Rattle.keyspace.specs.Commands.{Ready, visible};
ghost use Rattle.keyspace.specs.Sifted.{Adds};
ghost use Rattle.keyspace.specs.Shown.{PassesAt, Sifted, IsTablePage};
ghost use Rattle.cmd_keys.specs.Sieve.{is_type, numbers};
ghost use Rattle.blocks.specs.Blocks.{Blocks};

use blocks::BlockStore;
use keyspace::{Keyspace, Value, is_like, page_reply, push_names};
use plain_model::{Bytes, Ctx, Memory, Parts, Reply, ScanOptions, Word};
use scan_cursor::page;

// Whether TYPE lets a value pass. It ignores case.
fn has_type(name: &Option<Word<'_>>, value: &Value) -> bool
    ensures { (blocks : Blocks) → result ≡ is_type name.now (value_of blocks value.now) }
{
    match name {
        None => true,
        Some(name) => value
            .type_name()
            .as_slice()
            .eq_ignore_ascii_case(name.as_slice()),
    }
}

// The key of an item number, where it is there at the moment, and MATCH and TYPE let it pass.
fn passing<'a, B: BlockStore>(
    keyspace: &'a Keyspace<B>,
    at: &Ctx,
    options: &ScanOptions<'_>,
    item: usize,
) -> Option<&'a [u8]>
    requires ready { Ready B.blocks keyspace.now at.now }
    ensures some { IfSome result (λ key. PassesAt keyspace.now.bases (B.blocks keyspace.now.store) at.now (keys_sought at.now.db options.now) item key.now) }
    ensures none { IfNone result ((key : List ℕ) → PassesAt keyspace.now.bases (B.blocks keyspace.now.store) at.now (keys_sought at.now.db options.now) item key → ⊥) }
{
    match keyspace.there(at.db, item, at.moment) {
        None => None,
        Some(key) => {
            if !is_like(&options.pattern, key) {
                return None;
            }
            if !has_type(&options.type_name, keyspace.table(at.db).entry(item).1) {
                return None;
            }
            Some(key)
        }
    }
}

// Adds the key of an item number to the names where it passes.
fn push_passing<B: BlockStore>(
    keyspace: &Keyspace<B>,
    at: &Ctx,
    options: &ScanOptions<'_>,
    item: usize,
    names: &mut Vec<Bytes>,
) -> Result<(), Memory>
    requires ready { Ready B.blocks keyspace.now at.now }
    ensures { OnOk result (Adds (PassesAt keyspace.now.bases (B.blocks keyspace.now.store) at.now (keys_sought at.now.db options.now)) item names.old.items names.new.items) }
{
    match passing(keyspace, at, options, item) {
        None => Ok(()),
        Some(key) => {
            names.push(Bytes::new(keyspace.alloc(), key)?)?;
            Ok(())
        }
    }
}

// The keys of those item numbers of which one passes, in their order.
fn passing_of<B: BlockStore>(
    keyspace: &Keyspace<B>,
    at: &Ctx,
    options: &ScanOptions<'_>,
    items: &[usize],
) -> Result<Vec<Bytes>, Memory>
    requires ready { Ready B.blocks keyspace.now at.now }
    ensures { IfOk result (λ names. Sifted (PassesAt keyspace.now.bases (B.blocks keyspace.now.store) at.now (keys_sought at.now.db options.now)) items.now names.items) }
{
    let mut names = Vec::with_capacity(keyspace.alloc(), items.len())?;
    for item in items {
        push_passing(keyspace, at, options, *item, &mut names)?;
    }
    Ok(names)
}

// The same of all item numbers below one.
fn passing_below<B: BlockStore>(
    keyspace: &Keyspace<B>,
    at: &Ctx,
    options: &ScanOptions<'_>,
    top: usize,
) -> Result<Vec<Bytes>, Memory>
    requires ready { Ready B.blocks keyspace.now at.now }
    ensures { IfOk result (λ names. Sifted (PassesAt keyspace.now.bases (B.blocks keyspace.now.store) at.now (keys_sought at.now.db options.now)) (numbers top 0) names.items) }
{
    let mut names = Vec::new(keyspace.alloc());
    for item in 0..top {
        push_passing(keyspace, at, options, item, &mut names)?;
    }
    Ok(names)
}

/// `KEYS pattern`: the keys that the pattern matches, each once.
pub fn keys_like<B: BlockStore>(
    keyspace: &Keyspace<B>,
    at: &Ctx,
    pattern: &[u8],
) -> Result<Reply, Memory>
    requires ready { Ready B.blocks keyspace.now at.now }
    ensures { IfOk result (λ reply. AreKeysLike (visible B.blocks keyspace.now at.now) pattern.now reply) }
{
    let alloc = keyspace.alloc();
    let options = ScanOptions {
        pattern: Some(Word::new(pattern)),
        count: 1,
        type_name: None,
    };
    let names = passing_below(keyspace, at, &options, keyspace.table(at.db).top())?;
    let mut parts = Parts::new(alloc);
    push_names(&mut parts, names)?;
    Ok(parts.into_reply())
}

/// `SCAN cursor [MATCH pattern] [COUNT n] [TYPE name]`: the next cursor, and the keys of the moves from this one on until COUNT
/// keys were met, the cursor is 0 or ten times as many moves were made, without those that are gone or that MATCH or TYPE drop.
pub fn scan<B: BlockStore>(
    keyspace: &Keyspace<B>,
    at: &Ctx,
    cursor: u64,
    options: &ScanOptions<'_>,
) -> Result<Reply, Memory>
    requires ready { Ready B.blocks keyspace.now at.now }
    requires count { 0 < options.now.count }
    ensures page { IfOk result (λ reply. IsScanned keyspace.now.bases.seed (visible B.blocks keyspace.now at.now) cursor options.now reply) }
    ensures table { IfOk result (λ reply. IsTablePage keyspace.now.bases (B.blocks keyspace.now.store) at.now cursor options.now reply) }
{
    let alloc = keyspace.alloc();
    let met = page(alloc, keyspace.table(at.db), cursor, options.count)?;
    let names = passing_of(keyspace, at, options, met.items.as_slice())?;
    page_reply(alloc, met.next, names)
}
