// Whether a first text stands twice.

ghost use Rattle.std.specs.Prelude.{◌≡◌, ◌↔◌, map, IfOk, IsTrue, IsSorted};
ghost use Rattle.std.specs.Ordering.{nat_cmp};
ghost use Rattle.std.specs.Cmp.Lexicographic.{slice_cmp};
ghost use Rattle.std.specs.List.{IsDistinct};
ghost use Rattle.std.specs.Str.{bytes_eq};
ghost use Rattle.pack_pairs.specs.Pairs.{IsPairPack, IsOnce, pairs, first_spellings};

use crate::walks::{first_place, next_place};
use listpack::Memory;
use std::alloc::Global;

// The spelling of each first element.
fn spelled_firsts(alloc: Global, bytes: &[u8]) -> Result<Vec<&[u8]>, Memory>
    requires { IsPairPack bytes.now }
    ensures { IfOk result (λ firsts. map (λ part. part.now) firsts.items ≡ first_spellings bytes.now) }
{
    let pack = listpack::known(bytes);
    let count = pack.len() / 2;
    let mut firsts = Vec::with_capacity(alloc, count)?;
    let mut next = first_place(bytes);
    for _ in 0..count {
        match next {
            Some(at) => {
                let part = pack.spelling_at(at);
                firsts.push(part)?;
                next = next_place(bytes, at);
            }
            None => unreachable!(),
        }
    }
    Ok(firsts)
}

// Whether no two neighbours of parts in order are equal.
fn neighbours_differ(parts: &[&[u8]]) -> bool
    requires { IsSorted (λ a b. slice_cmp nat_cmp a.now b.now) parts.now }
    ensures { IsTrue result ↔ IsDistinct bytes_eq (map (λ part. part.now) parts.now) }
{
    for later in 1..parts.len() {
        if parts[later - 1] == parts[later] {
            return false;
        }
    }
    true
}

// Whether no two parts are equal. It puts them in order.
fn are_distinct(parts: &mut [&[u8]]) -> bool
    ensures { IsTrue result ↔ IsDistinct bytes_eq (map (λ part. part.now) parts.old) }
{
    parts.sort_unstable();
    neighbours_differ(parts)
}

/// Whether no first text stands twice. It sorts the first elements.
pub fn are_once(alloc: Global, bytes: &[u8]) -> Result<bool, Memory>
    requires { IsPairPack bytes.now }
    ensures { IfOk result (λ once. IsTrue once ↔ IsOnce (pairs bytes.now)) }
{
    let mut firsts = spelled_firsts(alloc, bytes)?;
    Ok(are_distinct(&mut firsts))
}
