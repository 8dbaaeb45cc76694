//! Pages: moves of a scan until enough was met.
#![tactic(auto)]

ghost use Rattle.std.specs.Prelude.{◌≡◌, ◌<◌, ℕ, Option, IfOk};
ghost use Rattle.rev_cursor.specs.Span.{Span};
ghost use Rattle.scan_cursor.specs.Page.{scan_list};

use rev_cursor::BucketScan;
pub use rev_cursor::Memory;
use std::alloc::Global;

/// A page: the next cursor, and the item numbers of the elements met.
#[derive(Drop)]
pub struct ScanPage {
    pub next: u64,
    pub items: Vec<usize>,
}

/// Makes moves from a cursor on until the cursor is 0, until `count` elements or more were met, or until ten times
/// `count` moves were made, as the SCAN commands do.
pub fn page<S: BucketScan>(
    alloc: Global,
    target: &S,
    cursor: u64,
    count: u64,
) -> Result<ScanPage, Memory>
    requires { 0 < count }
    ensures list { IfOk result (λ page. scan_list (S.move_at target.now) (S.after target.now) cursor count ≡ (page.items.items, page.next)) }

    // Each element of the interval of places from the cursor to the next one stands in the page once, and none of
    // another place.
    ensures span { IfOk result (λ page. (place_of : ℕ → Option ℕ) → S.can_stand target.now place_of → Span place_of cursor page.next page.items.items) }
{
    let mut items = Vec::new(alloc);
    let mut next = target.scan_at(cursor, &mut items)?;
    for _ in 1..u128::from(count) * 10 {
        if next == 0 || items.len() as u64 >= count {
            break;
        }
        next = target.scan_at(next, &mut items)?;
    }
    Ok(ScanPage { next, items })
}
