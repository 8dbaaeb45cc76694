// Moves of a scan over packed forms.

ghost use Rattle.std.specs.Prelude.{◌≡◌, ◌++◌, OnOk, OnErr, IfOk};
ghost use Rattle.rehash_dict.specs.Scan.{Extends};
ghost use Rattle.collection_walk.specs.Places.{upto};

use blocks::Memory;

// Appends the numbers below a number.
fn push_below(found: &mut Vec<usize>, count: usize) -> Result<(), Memory>
    ensures found { OnOk result (found.new.items ≡ found.old.items ++ upto count) }
    ensures kept { Extends found.old.items found.new.items }
{
    for index in 0..count {
        found.push(index)?;
    }
    Ok(())
}

/// Appends all items of a packed form, so that none is left. `Memory` leaves what was found before.
pub fn push_all(found: &mut Vec<usize>, count: usize) -> Result<u64, Memory>
    ensures found { OnOk result (found.new.items ≡ found.old.items ++ upto count) }
    ensures next { IfOk result (λ next. next ≡ 0) }
    ensures err { OnErr result (found.new.items ≡ found.old.items) }
{
    let before = found.len();
    if let Err(error) = push_below(found, count) {
        found.truncate(before);
        return Err(error);
    }
    Ok(0)
}
