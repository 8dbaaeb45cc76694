// Whether two lengths have one class.

ghost use Rattle.std.specs.Prelude.{◌≡◌, ◌↔◌, ◌<◌, ◌≤◌, ℕ, IsTrue};
ghost use Rattle.blocks.specs.Slabs.{IsClassOf};

use blocks::CLASS_SIZES;

/// Whether the class of a block is also the least that holds a shorter one.
pub(crate) fn is_same_class(len: usize, longer: usize) -> bool
    requires { len ≤ longer }
    ensures { (class : ℕ) → class < 36 → IsClassOf longer class → (IsTrue result ↔ IsClassOf len class) }
{
    for class in 0..CLASS_SIZES.len() {
        let size = CLASS_SIZES[class] as usize;
        if len <= size {
            return longer <= size;
        }
    }
    false
}
