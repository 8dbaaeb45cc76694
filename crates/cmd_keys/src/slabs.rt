//! The slabs of the store.

ghost use Rattle.std.specs.Prelude.{◌≡◌, ◌++◌, ◌∷◌, [], nat_lt, if◌then◌else◌, map, pos, IfOk, OnOk};
ghost use Rattle.plain_world.specs.declared.reply.Part.TheVariants.{Number};
ghost use Rattle.plain_model.specs.ConnectionSteps.{class_parts, slab_table};
ghost use Rattle.keyspace.specs.Shown.{used_classes, ListsSlabs};
ghost use Rattle.cmd_keys.specs.Slabs.{class_used};

use blocks::{BlockStore, ClassUse};
use keyspace::Keyspace;
use plain_model::{Memory, Part, Parts, Reply};
use std::alloc::AllocError;

// How many classes of lengths a store has.
const CLASSES: usize = 36;

// Adds the use of a class where it has a slab.
fn push_used(uses: &mut Vec<ClassUse>, in_use: ClassUse) -> Result<(), Memory>
    ensures { OnOk result (uses.new.items ≡ uses.old.items ++ (if nat_lt 0 in_use.slabs then in_use ∷ [] else [])) }
{
    if in_use.slabs > 0 {
        uses.push(in_use)?;
    }
    Ok(())
}

// The use of each class that has a slab, by rising sizes.
fn classes_with_slabs<B: BlockStore>(keyspace: &Keyspace<B>) -> Result<Vec<ClassUse>, Memory>
    ensures { IfOk result (λ uses. map class_used uses.items ≡ used_classes (B.heap keyspace.now.store)) }
{
    let mut uses = Vec::new(keyspace.alloc());
    for class in 0..CLASSES {
        push_used(&mut uses, keyspace.store.use_of(class))?;
    }
    Ok(uses)
}

// A count as a part of a reply.
fn count_part(count: u64) -> Result<Part, Memory>
    ensures { IfOk result (λ part. part ≡ Number (pos count)) }
{
    match i64::try_from(count) {
        Ok(count) => Ok(Part::Number(count)),
        // So many slabs or blocks stand in no memory.
        Err(_) => Err(AllocError),
    }
}

// Adds the three numbers of a class.
fn push_class(parts: &mut Parts, class: ClassUse) -> Result<(), Memory>
    ensures { OnOk result (parts.new ≡ parts.old ++ class_parts (class_used class)) }
{
    parts.push(Part::Array(3))?;
    parts.push(Part::Number(i64::from(class.size)))?;
    parts.push(count_part(class.slabs)?)?;
    parts.push(count_part(class.used)?)?;
    Ok(())
}

// Adds an array of the numbers of each of these classes.
#[tactic(auto, using(crate::proofs::Told::told_all))]
fn push_classes(parts: &mut Parts, uses: Vec<ClassUse>) -> Result<(), Memory>
    ensures { OnOk result (parts.new ≡ parts.old ++ slab_table (map class_used uses.items)) }
{
    parts.push(Part::Array(uses.len() as u64))?;
    for class in uses {
        push_class(parts, class)?;
    }
    Ok(())
}

/// `MEMORY SLABS`: the size in bytes, the number of slabs and that of the blocks in them, for each class of lengths that has a slab.
pub fn memory_slabs<B: BlockStore>(keyspace: &Keyspace<B>) -> Result<Reply, Memory>
    ensures { IfOk result (λ reply. ListsSlabs (B.heap keyspace.now.store) reply) }
{
    let uses = classes_with_slabs(keyspace)?;
    let mut parts = Parts::new(keyspace.alloc());
    push_classes(&mut parts, uses)?;
    Ok(parts.into_reply())
}
