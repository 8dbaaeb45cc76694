ghost use Rattle.std.specs.Prelude.{◌≡◌, ◌<◌, ◌≤◌, ◌/◌, ◌↔◌, IsTrue, IfSome, IfNone};
ghost use Rattle.blocks.specs.Slabs.{IsClassOf, per_slab, size_of};

use blocks::CLASS_SIZES;

/// How many bytes a slab has.
pub(crate) const SLAB_BYTES: usize = 65_536;

/// The size of the blocks of a class, in bytes.
pub(crate) fn size_in(class: usize) -> usize
    requires { class < 36 }
    ensures size { result ≡ size_of class }
    ensures least { 8 ≤ result }
    ensures most { result ≤ 14336 }
{
    CLASS_SIZES[class] as usize
}

/// How many blocks of a class a slab has room for.
pub(crate) fn slots_in(class: usize) -> usize
    requires { class < 36 }
    ensures slots { result ≡ per_slab class }
    ensures some { 0 < result }
    ensures most { result ≤ 8192 }
{
    SLAB_BYTES / size_in(class)
}

/// Whether the class is the least that holds a block of `len` bytes.
pub(crate) fn is_class_of(len: usize, class: usize) -> bool
    requires { class < 36 }
    ensures { IsTrue result ↔ IsClassOf len class }
{
    if size_in(class) < len {
        return false;
    }
    class == 0 || size_in(class - 1) < len
}

/// The least class that holds a block of `len` bytes; `None` where the block has to stand alone.
pub(crate) fn class_of(len: usize) -> Option<usize>
    ensures classed { IfSome result (λ class. class < 36) }
    ensures least { IfSome result (IsClassOf len) }
    ensures alone { IfNone result (14336 < len) }
{
    let mut low = 0;
    let mut high = CLASS_SIZES.len();
    'halve: while low < high {
        let middle = low + (high - low) / 2;
        if size_in(middle) < len {
            low = middle + 1;
        } else {
            high = middle;
        }
    }
    if low < CLASS_SIZES.len() {
        Some(low)
    } else {
        None
    }
}
