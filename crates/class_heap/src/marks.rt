//! What a pass keeps.
//!
//! # How a pass packs the slabs
//!
//! Blocks that come and go leave slabs half empty, and a slab is given back only when its last block goes. A pass makes each class
//! stand in as few slabs as its blocks need, `needed = used / slots`, rounded up, and moves no more blocks than it must:
//!
//! 1. `begin_pass` keeps the `needed` fullest slabs of each class, among equals those with the lower number. The blocks of the others
//!    want to move, and taking the fullest makes these the fewest.
//! 2. Whoever owns blocks goes through them and moves each that wants it, at any pace, while requests are served in between. A moved
//!    block goes into the first kept slab of its class that has room, and a slab whose last block has gone is given back at once.
//! 3. `end_pass` lets all slabs take blocks again.
//!
//! A move must need no memory, so room may never run short. The kept slabs of a class have `needed * slots - kept` free places for
//! `used - kept` blocks that wait to move; the difference, the class's margin, is `needed * slots - used`, which is not below 0. A move
//! takes a place from both sides. A block that is placed during the pass takes one from the margin, and where that is 0 it
//! gets a new slab, which is kept and brings the margin up by its other places; one that is given back adds one. So the margin never
//! goes below 0, and each block that waits has a place.

ghost use Rattle.std.specs.Prelude.{◌≡◌, ℕ, ◌+◌, ◌*◌, ◌^◌, ◌<◌, ◌≤◌, false, true, length, sum_by, count_by, slice_index_or};
ghost use Rattle.blocks.specs.Slabs.{is_of, released, spare_in, unmarked, used_in, waiting_in};
ghost use Rattle.class_heap.specs.Directory.{labels_at};
ghost use Rattle.class_heap.specs.Entries.{block_in, entry_at, labels_of, use_in};
ghost use Rattle.class_heap.specs.Marks.{holds_at_least, filled_in, all_marked, uses, needed_in, IsUnmarked, IsMarked, IsMarking, IsTally};

use crate::class::slots_in;
use crate::directory::Directory;
use crate::entry::Entry;
use crate::slab::Leftovers;

/// How many slabs of the class there are.
pub(crate) fn slabs_of(entries: &[Entry], class: usize) -> usize
    ensures { result ≡ count_by (is_of class) (uses entries.now) }
{
    entries.iter().filter(|entry| entry.is_of(class)).count()
}

/// How many blocks stand in them.
pub(crate) fn used_of(entries: &[Entry], class: usize) -> usize
    requires { length entries.now ≤ 2 ^ 40 }
    ensures used { result ≡ sum_by (used_in class) (uses entries.now) }
    ensures most { result ≤ length entries.now * 8192 }
{
    let mut used = 0;
    'add: for entry in entries {
        used += entry.used_in(class);
    }
    used
}

/// For each class, how many blocks stand in its slabs, and how many of these have one.
fn tally(entries: &[Entry]) -> ([usize; 36], [usize; 36])
    requires { length entries.now ≤ 2 ^ 40 }
    ensures used { IsTally used_in (uses entries.now) result.0 }
    ensures filled { IsTally filled_in (uses entries.now) result.1 }
{
    let mut used = [0usize; 36];
    let mut filled = [0usize; 36];
    'add: for entry in entries {
        if let Some(class) = entry.class() {
            used[class] += entry.used_in(class);
            filled[class] += usize::from(entry.holds_at_least(class, 1));
        }
    }
    (used, filled)
}

/// How many slabs of the class have at least so many blocks.
fn fuller(entries: &[Entry], class: usize, least: usize) -> usize
    ensures { result ≡ count_by (holds_at_least class least) (uses entries.now) }
{
    entries
        .iter()
        .filter(|entry| entry.holds_at_least(class, least))
        .count()
}

/// The greatest number of blocks that so many slabs of the class have at least.
fn threshold(entries: &[Entry], class: usize, needed: usize, top: usize) -> usize
    requires some { 0 < top }
    requires enough { needed ≤ count_by (holds_at_least class 0) (uses entries.now) }
    requires few { count_by (holds_at_least class top) (uses entries.now) < needed }
    ensures below { result < top }
    ensures enough { needed ≤ count_by (holds_at_least class result) (uses entries.now) }
    ensures few { count_by (holds_at_least class (result + 1)) (uses entries.now) < needed }
{
    let mut low = 0;
    let mut high = top;
    'halve: while high - low > 1 {
        let middle = low + (high - low) / 2;
        if fuller(entries, class, middle) < needed {
            high = middle;
        } else {
            low = middle;
        }
    }
    low
}

/// Keeps the slabs of the class with more blocks than `least`, and the first so many with as many.
fn keep(entries: &mut [Entry], class: usize, least: usize, mut equal: usize)
    ensures long { length entries.new ≡ length entries.old }
    ensures blocks { (n slot : ℕ) → block_in (entry_at entries.new n) slot ≡ block_in (entry_at entries.old n) slot }
    ensures marked { uses entries.new ≡ all_marked class least equal (uses entries.old) }
{
    'mark: for number in 0..entries.len() {
        equal = entries[number].keep(class, least, equal);
    }
}

/// Keeps so many of the fullest slabs of the class, among equals those with the lower number. `filled` of its slabs have a
/// block: most often all of these are needed, and then no limit has to be found.
fn keep_fullest(entries: &mut [Entry], class: usize, needed: usize, filled: usize)
    requires class { class < 36 }
    requires unmarked { IsUnmarked class entries.old }
    requires enough { needed ≤ count_by (holds_at_least class 0) (uses entries.old) }
    requires filled { filled ≡ count_by (holds_at_least class 1) (uses entries.old) }
    ensures marking { IsMarking class entries.old entries.new }
    ensures marked { IsMarked class needed entries.new }
{
    if needed == 0 {
        return;
    }
    if filled <= needed {
        keep(entries, class, 0, needed - filled);
        return;
    }
    let least = threshold(entries, class, needed, slots_in(class) + 1);
    let above = fuller(entries, class, least + 1);
    keep(entries, class, least, needed - above);
}

/// Keeps as many slabs of the class as its `used` blocks need; `filled` of its slabs have one. The answer says by how many
/// the free places of the kept are more than the blocks in the others.
fn mark(entries: &mut [Entry], class: usize, used: usize, filled: usize) -> usize
    requires class { class < 36 }
    requires few { used ≤ 2 ^ 53 }
    requires unmarked { IsUnmarked class entries.old }
    requires used { used ≡ sum_by (used_in class) (uses entries.old) }
    requires filled { filled ≡ count_by (holds_at_least class 1) (uses entries.old) }
    ensures marking { IsMarking class entries.old entries.new }
    ensures marked { IsMarked class (needed_in class entries.new) entries.new }
    ensures margin { sum_by (waiting_in class) (uses entries.new) + result ≡ sum_by (spare_in class) (uses entries.new) }
{
    let slots = slots_in(class);
    let needed = used.div_ceil(slots);
    keep_fullest(entries, class, needed, filled);
    needed * slots - used
}

/// Keeps in each class as many slabs as its blocks need, and sets its margin: by how many the free places of these
/// are more than the blocks in the others.
pub(crate) fn mark_all(entries: &mut [Entry], margins: &mut [usize])
    requires few { length entries.old ≤ 2 ^ 40 }
    requires classes { length margins.old ≡ 36 }
    requires unmarked { (class : ℕ) → IsUnmarked class entries.old }
    ensures long { length entries.new ≡ length entries.old }
    ensures blocks { (n slot : ℕ) → block_in (entry_at entries.new n) slot ≡ block_in (entry_at entries.old n) slot }
    ensures same { (n : ℕ) → unmarked (use_in (entry_at entries.new n)) ≡ unmarked (use_in (entry_at entries.old n)) }
    ensures marked { (class : ℕ) → class < 36 → IsMarked class (needed_in class entries.new) entries.new }
    ensures classes { length margins.new ≡ 36 }
    ensures margin { (class : ℕ) → class < 36 → sum_by (waiting_in class) (uses entries.new) + slice_index_or margins.new class 0 ≡ sum_by (spare_in class) (uses entries.new) }
{
    let (used, filled) = tally(entries);
    'classes: for class in 0..36 {
        margins[class] = mark(entries, class, used[class], filled[class]);
    }
}

/// Ends the keeping of all slabs. Those without a block go, and the others take blocks again.
pub(crate) fn release_all(
    entries: &mut [Entry],
    directory: &mut Directory,
    leftovers: &mut Leftovers,
)
    requires { length entries.old ≡ directory.old.bound }
    ensures long { length entries.new ≡ length entries.old }
    ensures blocks { (n slot : ℕ) → block_in (entry_at entries.new n) slot ≡ block_in (entry_at entries.old n) slot }
    ensures released { (n : ℕ) → use_in (entry_at entries.new n) ≡ released (use_in (entry_at entries.old n)) }
    ensures bound { directory.new.bound ≡ directory.old.bound }
    ensures labelled { (n : ℕ) → n < length entries.new → labels_at directory.new n ≡ labels_of false (entry_at entries.new n) }
{
    'release: for number in 0..entries.len() {
        let entry = &mut entries[number];
        entry.release(leftovers);
        let labels = entry.labels(false);
        directory.set(number, labels);
    }
}

/// Has only kept slabs take blocks.
pub(crate) fn label_all(entries: &[Entry], directory: &mut Directory)
    requires { length entries.now ≡ directory.old.bound }
    ensures bound { directory.new.bound ≡ directory.old.bound }
    ensures labelled { (n : ℕ) → n < length entries.now → labels_at directory.new n ≡ labels_of true (entry_at entries.now n) }
{
    'label: for number in 0..entries.len() {
        directory.set(number, entries[number].labels(true));
    }
}
