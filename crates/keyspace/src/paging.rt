//! Pages of scans: which item numbers they meet, what MATCH lets pass, and what is told of it.

ghost use Rattle.std.specs.Prelude.{◌≡◌, ◌<◌, ◌^◌, ◌++◌, ◌∷◌, [], ℕ, List, Option, pos, unwrap_or, IfOk, OnOk, IsTrue, ◌↔◌};
ghost use Rattle.std.specs.FinMap.{get};
ghost use Rattle.std.specs.Fmt.{decimal};
ghost use Rattle.blocks.specs.Blocks.{Blocks};
ghost use Rattle.int_text.specs.Decimal.{canonical};
ghost use Rattle.set_object.specs.Members as set;
ghost use Rattle.set_object.specs.Items as set_items;
ghost use Rattle.hash_object.specs.Fields as hash;
ghost use Rattle.hash_object.specs.Items as hash_items;
ghost use Rattle.zset_object.specs.Scored as zset;
ghost use Rattle.zset_object.specs.Items as zset_items;
ghost use Rattle.plain_model.specs.Scans.{IsLike, listed, paged};
ghost use Rattle.keyspace.specs.Sifted.{AddsWords, SiftsWords, PassesOf};
ghost use Rattle.keyspace.specs.Pages.{IsPageOf, field_of, member_of};

use crate::Keyspace;
use crate::telling::{bytes_of, number_text};
use blocks::BlockStore;
use glob::matches;
use hash_object::Fields;
use itoa::Buffer;
use plain_model::{Bytes, Memory, Part, Parts, Reply, ScanOptions, Word};
use rev_cursor::BucketScan;
use scan_cursor::page;
use set_object::Members;
use std::alloc::Global;
use zset_object::Scored;

/// Whether MATCH lets a key, a member or a field pass. Without a pattern all pass.
pub fn is_like(pattern: &Option<Word<'_>>, name: &[u8]) -> bool
    ensures { IsTrue result ↔ IsLike pattern.now name.now }
{
    match pattern {
        None => true,
        Some(pattern) => matches(pattern.as_slice(), name),
    }
}

// A cursor as text.
fn cursor_text(alloc: Global, cursor: u64) -> Result<Bytes, Memory>
    ensures text { IfOk result (λ text. text ≡ decimal cursor) }
    ensures fits { cursor < 2 ^ 64 }
{
    let mut buffer = Buffer::new();
    Bytes::new(alloc, buffer.format(cursor).as_bytes())
}

/// Adds an array of these names.
pub fn push_names(parts: &mut Parts, names: Vec<Bytes>) -> Result<(), Memory>
    ensures { OnOk result (parts.new ≡ parts.old ++ listed names.items) }
{
    parts.push(Part::Array(names.len() as u64))?;
    for name in names {
        parts.push(Part::Bulk(name))?;
    }
    Ok(())
}

/// A page as a scan answers it: the next cursor, and an array of words.
pub fn page_reply(alloc: Global, next: u64, words: Vec<Bytes>) -> Result<Reply, Memory>
    ensures is { IfOk result (λ reply. reply ≡ paged next words.items) }
    ensures fits { next < 2 ^ 64 }
{
    let mut parts = Parts::new(alloc);
    parts.push(Part::Array(2))?;
    parts.push(Part::Bulk(cursor_text(alloc, next)?))?;
    push_names(&mut parts, words)?;
    Ok(parts.into_reply())
}

/// What HSCAN, SSCAN and ZSCAN go through: members or fields that are told by their item numbers.
pub trait Paged: BucketScan {
    /// It is sound over the blocks of a store.
    ghost is_sound: { Blocks → Self → Type 0 };

    /// The member or the field of an item number.
    ghost name_at: { Blocks → Self → ℕ → Option (List ℕ) };

    /// The words that tell of a member or a field.
    ghost words_of: { Blocks → Self → List ℕ → List (List ℕ) };

    /// Adds the words that tell of the member or the field of an item number, where one has it and MATCH lets it pass.
    fn push_like<B: BlockStore>(
        &self,
        alloc: Global,
        store: &B,
        item: usize,
        pattern: &Option<Word<'_>>,
        words: &mut Vec<Bytes>,
    ) -> Result<(), Memory>
        requires { is_sound (B.blocks store.now) self.now }
        ensures { OnOk result (AddsWords (PassesOf (name_at (B.blocks store.now) self.now) pattern.now) (words_of (B.blocks store.now) self.now) item words.old.items words.new.items) };
}

impl Paged for Members {
    ghost is_sound = { λ blocks m. set.IsMembers blocks m };

    ghost name_at = { λ blocks m item. set_items.member_at blocks m item };

    ghost words_of = { λ blocks m member. member ∷ [] };

    fn push_like<B: BlockStore>(
        &self,
        alloc: Global,
        store: &B,
        item: usize,
        pattern: &Option<Word<'_>>,
        words: &mut Vec<Bytes>,
    ) -> Result<(), Memory> {
        if !self.is_entry(item) {
            return Ok(());
        }
        let member = bytes_of(alloc, self.at(store, item))?;
        if is_like(pattern, member.as_slice()) {
            words.push(member)?;
        }
        Ok(())
    }
}

impl Paged for Fields {
    ghost is_sound = { λ blocks f. hash.IsFields blocks f };

    ghost name_at = { λ blocks f item. field_of (hash_items.pair_at blocks f item) };

    ghost words_of = { λ blocks f field. field ∷ unwrap_or (get (hash.fields blocks f) field) [] ∷ [] };

    fn push_like<B: BlockStore>(
        &self,
        alloc: Global,
        store: &B,
        item: usize,
        pattern: &Option<Word<'_>>,
        words: &mut Vec<Bytes>,
    ) -> Result<(), Memory> {
        if !self.is_entry(item) {
            return Ok(());
        }
        let (field, value) = self.at(store, item);
        let field = bytes_of(alloc, field)?;
        if is_like(pattern, field.as_slice()) {
            words.push(field)?;
            words.push(bytes_of(alloc, value)?)?;
        }
        Ok(())
    }
}

impl Paged for Scored {
    ghost is_sound = { λ blocks s. zset.IsScored blocks s };

    ghost name_at = { λ blocks s item. member_of (zset_items.pair_at blocks s item) };

    ghost words_of = { λ blocks s member. member ∷ canonical (unwrap_or (get (zset.scores blocks s) member) (pos 0)) ∷ [] };

    fn push_like<B: BlockStore>(
        &self,
        alloc: Global,
        store: &B,
        item: usize,
        pattern: &Option<Word<'_>>,
        words: &mut Vec<Bytes>,
    ) -> Result<(), Memory> {
        if !self.is_entry(item) {
            return Ok(());
        }
        let (member, score) = self.at(store, item);
        let member = bytes_of(alloc, member)?;
        if is_like(pattern, member.as_slice()) {
            words.push(member)?;
            words.push(number_text(alloc, score)?)?;
        }
        Ok(())
    }
}

// The words that tell of those item numbers that have a member or a field which MATCH lets pass, in their order.
fn words_like<P: Paged, B: BlockStore>(
    alloc: Global,
    store: &B,
    target: &P,
    items: &[usize],
    pattern: &Option<Word<'_>>,
) -> Result<Vec<Bytes>, Memory>
    requires { P.is_sound (B.blocks store.now) target.now }
    ensures { IfOk result (λ words. SiftsWords (PassesOf (P.name_at (B.blocks store.now) target.now) pattern.now) (P.words_of (B.blocks store.now) target.now) items.now words.items) }
{
    let mut words = Vec::new(alloc);
    for item in items {
        target.push_like(alloc, store, *item, pattern, &mut words)?;
    }
    Ok(words)
}

/// A page of the members or the fields of a value: the next cursor, and an array of what is told of those of the moves
/// from a cursor on until COUNT of them were met, the cursor is 0 or ten times as many moves were made, without those that MATCH
/// drops (Redis command reference, "SCAN").
pub fn page_of<P: Paged, B: BlockStore>(
    keyspace: &Keyspace<B>,
    target: &P,
    cursor: u64,
    options: &ScanOptions<'_>,
) -> Result<Reply, Memory>
    requires sound { P.is_sound (B.blocks keyspace.now.store) target.now }
    requires count { 0 < options.now.count }
    ensures { IfOk result
        (λ reply. IsPageOf (P.can_stand target.now) (P.move_at target.now) (P.after target.now) (P.name_at (B.blocks keyspace.now.store) target.now)
        (P.words_of (B.blocks keyspace.now.store) target.now) cursor options.now reply) }
{
    let alloc = keyspace.alloc();
    let met = page(alloc, target, cursor, options.count)?;
    let items = met.items.as_slice();
    let words = words_like(alloc, &keyspace.store, target, items, &options.pattern)?;
    page_reply(alloc, met.next, words)
}

/// The page of a missing key: it is empty, and the scan ends there.
pub fn empty_page(alloc: Global) -> Result<Reply, Memory>
    ensures { IfOk result (λ reply. reply ≡ paged 0 []) }
{
    page_reply(alloc, 0, Vec::new(alloc))
}
