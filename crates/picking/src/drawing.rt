// Single draws.

ghost use Rattle.std.specs.Prelude.{◌<◌, ℕ, IfSome, IfOk, MatchOption};
ghost use Rattle.picking.specs.Picks.{IsThere, NoneIsThere};

use crate::Items;
use rand_core::utils::next_u64_via_u32;
use rand_pcg::Pcg32;
use rev_cursor::Memory;

// How often one element is drawn for before the elements are walked over. A draw out of a bucket fails where it is empty, which at
// least one in ten is not.
pub(crate) const TRIES: usize = 500;

// A number below another one, where there is one.
fn draw_below(dice: &mut Pcg32, bound: usize) -> Option<usize>
    ensures { IfSome result (λ drawn. drawn < bound) }
{
    if bound == 0 {
        return None;
    }
    Some(next_u64_via_u32(dice) as usize % bound)
}

// A number that may be an item number. Where elements have half of the numbers below the top, it is one of these, else one out of a
// bucket.
fn draw_number<P: Items>(
    items: &P,
    dice: &mut Pcg32,
    found: &mut Vec<usize>,
) -> Result<Option<usize>, Memory> {
    let top = items.above();
    if items.count() >= top / 2 {
        return Ok(draw_below(dice, top));
    }
    found.clear();
    items.scan_at(next_u64_via_u32(dice), found)?;
    match draw_below(dice, found.len()) {
        None => Ok(None),
        Some(index) => Ok(Some(found[index])),
    }
}

/// An item number that is drawn once. `found` is room for the numbers of a bucket.
pub(crate) fn draw<P: Items>(
    items: &P,
    dice: &mut Pcg32,
    found: &mut Vec<usize>,
) -> Result<Option<usize>, Memory>
    ensures { IfOk result (λ drawn. IfSome drawn (λ at. IsThere (λ m. P.is_sound m items.now) (λ m item. P.has_item m items.now item) at)) }
{
    match draw_number(items, dice, found)? {
        Some(item) => {
            if items.is_item(item) {
                Ok(Some(item))
            } else {
                Ok(None)
            }
        }
        None => Ok(None),
    }
}

// The first item number.
fn first_item<P: Items>(items: &P) -> Option<usize>
    ensures { MatchOption result (NoneIsThere (λ m. P.is_sound m items.now) (λ m item. P.has_item m items.now item)) (IsThere (λ m. P.is_sound m items.now) (λ m item. P.has_item m items.now item)) }
{
    for item in 0..items.above() {
        if items.is_item(item) {
            return Some(item);
        }
    }
    None
}

/// One item number by chance, where there is one.
pub(crate) fn pick_one<P: Items>(
    items: &P,
    dice: &mut Pcg32,
    found: &mut Vec<usize>,
) -> Result<Option<usize>, Memory>
    ensures { IfOk result
        (λ picked. MatchOption picked (NoneIsThere (λ m. P.is_sound m items.now) (λ m item. P.has_item m items.now item))
        (IsThere (λ m. P.is_sound m items.now) (λ m item. P.has_item m items.now item))) }
{
    for _ in 0..TRIES {
        match draw(items, dice, found)? {
            Some(item) => return Ok(Some(item)),
            None => {}
        }
    }
    Ok(first_item(items))
}
