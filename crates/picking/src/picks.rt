// Several picks.

ghost use Rattle.std.specs.Prelude.{IfOk, OnOk, Some};
ghost use Rattle.picking.specs.Picks.{ArePicks, AreDraws, IsPick};
ghost use Rattle.picking.specs.Sofar.{AreSoFar, Adds};

use crate::Items;
use crate::drawing::{TRIES, draw, pick_one};
use rand_pcg::Pcg32;
use rev_cursor::Memory;
use std::alloc::Global;
use std::collections::BTreeSet;

// Item numbers in the order in which they were picked, and the same for the question which were.
#[derive(Drop)]
struct Picked {
    items: Vec<usize>,
    seen: BTreeSet<usize>,
}

// Keeps an item number, where it was not picked before.
fn add(picked: &mut Picked, item: usize) -> Result<(), Memory>
    ensures { OnOk result (Adds picked.old.items.items picked.old.seen item picked.new.items.items picked.new.seen) }
{
    if picked.seen.insert(item)? {
        picked.items.push(item)?;
    }
    Ok(())
}

// Draws until so many different item numbers were picked, or until too many draws gave none that is new.
fn draw_apart<P: Items>(
    alloc: Global,
    items: &P,
    n: usize,
    dice: &mut Pcg32,
    picked: &mut Picked,
) -> Result<(), Memory>
    requires { AreSoFar (λ m. P.is_sound m items.now) (λ m item. P.has_item m items.now item) n picked.old.items.items picked.old.seen }
    ensures { OnOk result (AreSoFar (λ m. P.is_sound m items.now) (λ m item. P.has_item m items.now item) n picked.new.items.items picked.new.seen) }
{
    let mut found = Vec::new(alloc);
    for _ in 0..n.saturating_mul(8).saturating_add(TRIES) {
        if picked.items.len() >= n {
            break;
        }
        match draw(items, dice, &mut found)? {
            Some(item) => add(picked, item)?,
            None => {}
        }
    }
    Ok(())
}

// Picks the first item numbers that were not picked before, until they are so many.
fn fill_up<P: Items>(items: &P, n: usize, picked: &mut Picked) -> Result<(), Memory>
    requires { AreSoFar (λ m. P.is_sound m items.now) (λ m item. P.has_item m items.now item) n picked.old.items.items picked.old.seen }
    ensures { OnOk result (ArePicks (λ m. P.is_sound m items.now) (λ m item. P.has_item m items.now item) n picked.new.items.items) }
{
    for item in 0..items.above() {
        if picked.items.len() >= n {
            return Ok(());
        }
        if items.is_item(item) {
            add(picked, item)?;
        }
    }
    Ok(())
}

/// Different item numbers, at most so many: all that there are where they are fewer. Each is drawn in constant time on average.
pub fn pick_apart<P: Items>(
    alloc: Global,
    items: &P,
    n: usize,
    dice: &mut Pcg32,
) -> Result<Vec<usize>, Memory>
    ensures { IfOk result (λ picked. ArePicks (λ m. P.is_sound m items.now) (λ m item. P.has_item m items.now item) n picked.items) }
{
    let mut picked = Picked {
        items: Vec::new(alloc),
        seen: BTreeSet::new(alloc),
    };
    if n < items.count() {
        draw_apart(alloc, items, n, dice, &mut picked)?;
    }
    fill_up(items, n, &mut picked)?;
    Ok(picked.items)
}

// So many item numbers, which may repeat, or none where there is no element.
fn pick_often<P: Items>(
    alloc: Global,
    items: &P,
    n: u64,
    dice: &mut Pcg32,
) -> Result<Vec<usize>, Memory>
    ensures { IfOk result (λ picked. AreDraws (λ m. P.is_sound m items.now) (λ m item. P.has_item m items.now item) n picked.items) }
{
    let mut drawn = Vec::new(alloc);
    let mut found = Vec::new(alloc);
    for _ in 0..n {
        match pick_one(items, dice, &mut found)? {
            Some(item) => drawn.push(item)?,
            None => return Ok(drawn),
        }
    }
    Ok(drawn)
}

// At most so many different item numbers, or for a number below 0 as many as it says, which may repeat.
fn pick_signed<P: Items>(
    alloc: Global,
    items: &P,
    n: i64,
    dice: &mut Pcg32,
) -> Result<Vec<usize>, Memory>
    ensures { IfOk result (λ picked. IsPick (λ m. P.is_sound m items.now) (λ m item. P.has_item m items.now item) (Some n) picked.items) }
{
    let many = n.unsigned_abs();
    if n < 0 {
        return pick_often(alloc, items, many, dice);
    }
    pick_apart(alloc, items, many as usize, dice)
}

/// Item numbers by chance: one without a number, at most so many different ones, or for a number below 0 as many as it says, which
/// may repeat. Where there are fewer elements than different ones are asked for, all are picked.
pub fn pick<P: Items>(
    alloc: Global,
    items: &P,
    n: Option<i64>,
    dice: &mut Pcg32,
) -> Result<Vec<usize>, Memory>
    ensures { IfOk result (λ picked. IsPick (λ m. P.is_sound m items.now) (λ m item. P.has_item m items.now item) n picked.items) }
{
    match n {
        None => pick_apart(alloc, items, 1, dice),
        Some(n) => pick_signed(alloc, items, n, dice),
    }
}
