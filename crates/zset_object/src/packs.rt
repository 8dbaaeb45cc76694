// Members and scores that are packed in the bytes of one block, in order.

ghost use Rattle.std.specs.Prelude.{◌≡◌, ℕ, ◌+◌, ◌≤◌, None, Some, IfOk, MatchOption, length, max, slice_get};
ghost use Rattle.std.specs.List.{insert as inserted, remove_range as range_removed};
ghost use Rattle.std.specs.FinMap.{get, insert};
ghost use Rattle.int_text.specs.Decimal.{IsI64Text, canonical};
ghost use Rattle.listpack.specs.Element.{element_text};
ghost use Rattle.pack_pairs.specs.Pairs.{IsPairPack, IsPairAt, FitsPair, pairs, second_of};
ghost use Rattle.score_list.specs.Sorted.{Key};
ghost use Rattle.zset_object.specs.Orders.{map_of_keys, place_in, is_before};
ghost use Rattle.zset_object.specs.Packed.{IsScorePack, IsIndex, keys_in, scores_in, longest_in};

use blocks::Memory;
use int_text::read_i64;
use itoa::Buffer;
use listpack::{Element, remove_range};
use pack_pairs::{find, first, first_place, put_pair, second, step, text, without};
use std::alloc::Global;
use std::cmp::Ordering;

// The score that an element tells.
fn score_of(element: Element<'_>) -> i64
    requires { IsI64Text (element_text element) }
    ensures { canonical result ≡ element_text element.entry }
{
    match element {
        Element::Number(score) => score,
        Element::Text(part) => match read_i64(part) {
            Some(score) => score,
            None => unreachable!(),
        },
    }
}

/// The score of the pair at an offset.
pub(crate) fn score_at(bytes: &[u8], at: usize) -> i64
    requires pack { IsScorePack bytes.now }
    requires place { (i : ℕ) × IsPairAt bytes.now i at }
    ensures { (i : ℕ) → IsPairAt bytes.now i at → (key : Key) → slice_get (keys_in bytes.now) i ≡ Some key → result ≡ key.0 }
{
    score_of(second(bytes, at))
}

/// The member and the score of the pair at an offset.
pub(crate) fn entry_at(bytes: &[u8], at: usize) -> (Element<'_>, i64)
    requires pack { IsScorePack bytes.now }
    requires place { (i : ℕ) × IsPairAt bytes.now i at }
    ensures { (i : ℕ) → IsPairAt bytes.now i at → slice_get (keys_in bytes.now) i ≡ Some (result.1, element_text result.0) }
{
    (first(bytes, at), score_at(bytes, at))
}

// A member and its score, and the offset of the pair behind them.
#[derive(Clone, Copy, Debug)]
struct Entry<'a> {
    member: Element<'a>,
    score: i64,
    next: Option<usize>,
}

// The pair at an offset. Its `next` is `None` exactly where it is the last one.
fn step_at(bytes: &[u8], at: usize) -> Entry<'_>
    requires pack { IsScorePack bytes.now }
    requires place { (i : ℕ) × IsPairAt bytes.now i at }
    ensures key { (i : ℕ) → IsPairAt bytes.now i at → slice_get (keys_in bytes.now) i ≡ Some (result.score, element_text result.member) }
    ensures next { (i : ℕ) → IsPairAt bytes.now i at → MatchOption result.next (i + 1 ≡ length (pairs bytes.now)) (λ to. IsPairAt bytes.now (i + 1) to) }
{
    let pair = step(bytes, at);
    Entry {
        member: pair.first,
        score: score_of(pair.second),
        next: pair.next,
    }
}

// Whether a member with a score stands before another score and member.
fn is_before(element: Element<'_>, other: i64, score: i64, member: &[u8]) -> bool
    ensures { result ≡ is_before (score, member.now) (other, element_text element.entry) }
{
    match other.cmp(&score) {
        Ordering::Less => true,
        Ordering::Greater => false,
        Ordering::Equal => match text(element, &mut Buffer::new()).cmp(member) {
            Ordering::Less => true,
            _ => false,
        },
    }
}

/// How many pairs stand before a score and a member, by one pass over them.
pub(crate) fn place_of(bytes: &[u8], score: i64, member: &[u8]) -> usize
    requires { IsScorePack bytes.now }
    ensures { result ≡ place_in (score, member.now) (keys_in bytes.now) }
{
    let count = listpack::known(bytes).len() / 2;
    let mut next = first_place(bytes);
    for index in 0..count {
        match next {
            Some(at) => {
                let entry = step_at(bytes, at);
                if !is_before(entry.member, entry.score, score, member) {
                    return index;
                }
                next = entry.next;
            }
            None => unreachable!(),
        }
    }
    count
}

/// The score of a member, by one pass over the pairs.
pub(crate) fn find_score(bytes: &[u8], member: &[u8]) -> Option<i64>
    requires { IsScorePack bytes.now }
    ensures { result ≡ get (map_of_keys (keys_in bytes.now)) member.now }
{
    match find(bytes, member) {
        Some(place) => Some(score_at(bytes, place.at)),
        None => None,
    }
}

/// The index of a member's pair, by one pass over the pairs.
pub(crate) fn find_index(bytes: &[u8], member: &[u8]) -> Option<usize>
    requires { IsPairPack bytes.now }
    ensures { IsIndex (pairs bytes.now) member.now result }
{
    match find(bytes, member) {
        Some(place) => Some(place.index),
        None => None,
    }
}

// The listpack with a member that it lacks, at the place that its score gives it.
fn with_member(pack: Vec<u8>, score: i64, member: &[u8]) -> Result<Vec<u8>, Memory>
    requires pack { IsScorePack pack.items }
    requires lacks { second_of member.now (pairs pack.items) ≡ None }
    requires fits { FitsPair pack.items member.now (canonical score) }
    ensures pack { IfOk result (λ new. IsScorePack new.items) }
    ensures list { IfOk result (λ new. pairs new.items ≡ inserted (pairs pack.items) (place_in (score, member.now) (keys_in pack.items)) (member.now, canonical score)) }
{
    let index = place_of(&pack, score, member);
    let mut room = Buffer::new();
    put_pair(pack, index, member, room.format(score).as_bytes())
}

/// A copy of the listpack with this score of a member, whose pair's index is at hand.
pub(crate) fn pack_with(
    alloc: Global,
    bytes: &[u8],
    index: Option<usize>,
    score: i64,
    member: &[u8],
) -> Result<Vec<u8>, Memory>
    requires pack { IsScorePack bytes.now }
    requires index { IsIndex (pairs bytes.now) member.now index }
    requires few { length (pairs bytes.now) ≤ 4096 }
    requires short { max (length member.now) (longest_in bytes.now) ≤ 4096 }
    ensures pack { IfOk result (λ new. IsScorePack new.items) }
    ensures scores { IfOk result (λ new. scores_in new.items ≡ insert (scores_in bytes.now) member.now score) }
    ensures longest { IfOk result (λ new. longest_in new.items ≤ max (length member.now) (longest_in bytes.now)) }
{
    match index {
        Some(index) => {
            let left = without(alloc, bytes, index)?;
            with_member(left, score, member)
        }
        None => {
            let all = Vec::from_slice(alloc, bytes)?;
            with_member(all, score, member)
        }
    }
}

/// A copy of the listpack without the pairs from an index to below another one.
pub(crate) fn without_range(
    alloc: Global,
    bytes: &[u8],
    from: usize,
    to: usize,
) -> Result<Vec<u8>, Memory>
    requires pack { IsPairPack bytes.now }
    requires order { from ≤ to }
    requires inside { to ≤ length (pairs bytes.now) }
    ensures pack { IfOk result (λ new. IsPairPack new.items) }
    ensures list { IfOk result (λ new. pairs new.items ≡ range_removed (pairs bytes.now) from to) }
{
    let mut pack = Vec::from_slice(alloc, bytes)?;
    remove_range(&mut pack, 2 * from, 2 * to);
    Ok(pack)
}
