//! What is done behind a serving: the slabs are told, and the world is saved.

ghost use Rattle.std.specs.Prelude.{◌≡◌, Some, option_map};
ghost use Rattle.fit_worlds.specs.Fit.{IsFit};
ghost use Rattle.program_top.specs.Engines.{world_of};
ghost use Rattle.program_top.specs.Notes.{Notes};
ghost use Rattle.saving_top.specs.Closing.{AuditsEngine, PutsSlabs, StoresEngine, not_saved_line};

use blocks::Memory;
use class_heap::ClassHeap;
use defrag_rax::{audit, audit_lines};
use outside::{Shelf, Sink};
use program_top::ending::Ending;
use program_top::notes::note;
use rdb_writer::save;
use redis_core::Engine;
use resp_frames::put_all;
use std::alloc::Global;

// The exit status of a saving that failed.
const NOT_SAVED: u8 = 10;

// Writes the lines of what stands in the engine's slabs to the notes. A fault of the notes changes nothing else.
fn tell_slabs<N: Sink>(
    alloc: Global,
    engine: &Engine<ClassHeap>,
    notes: &mut N,
) -> Result<(), Memory>
    ensures { PutsSlabs engine.now (N.seen notes.old) (N.seen notes.new) result }
{
    let rows = audit(alloc, engine.keyspace())?;
    let text = audit_lines(alloc, &rows)?;
    let lines = text.as_slice();
    if lines.is_empty() {
        return Ok(());
    }
    match put_all(notes, lines) {
        Ok(()) => Ok(()),
        Err(_) => Ok(()),
    }
}

/// After a serving with status 0, tells what stands in the engine's slabs where that is asked for: the status stays 0, or is 8
/// where memory wanted, which is noted. After another status it does nothing.
pub fn audit_left<N: Sink>(
    alloc: Global,
    asked: bool,
    served: u8,
    engine: &Engine<ClassHeap>,
    notes: &mut N,
) -> u8
    ensures { AuditsEngine engine.now asked served (N.seen notes.old) (N.seen notes.new) result }
{
    if !asked {
        return served;
    }
    if served != 0 {
        return served;
    }
    match tell_slabs(alloc, engine, notes) {
        Ok(()) => 0,
        Err(_) => {
            note(notes, Ending::Memory);
            Ending::Memory.status()
        }
    }
}

// Writes the line of a saving that failed to the notes. A fault of the notes changes nothing else.
fn note_fault<N: Sink>(notes: &mut N)
    ensures { Notes (N.seen notes.old) (N.seen notes.new) not_saved_line }
{
    match put_all(notes, b"redis-core: saving failed\n") {
        Ok(()) => {}
        Err(_) => {}
    }
}

/// After a run that has status 0 so far, saves what the engine holds at the last moment that it used, in the file of this name,
/// where there is one: the status is 0, or 10 where the shelf failed, which is noted. After another status it does nothing.
pub fn save_left<N: Sink, F: Shelf>(
    audited: u8,
    engine: &Engine<ClassHeap>,
    name: Option<&str>,
    notes: &mut N,
    shelf: &mut F,
) -> u8
    requires { audited ≡ 0 → IsFit (world_of engine.now) }
    ensures { StoresEngine engine.now (option_map (λ s. s.now) name.entry) audited (N.seen notes.old) (N.seen notes.new) (F.seen shelf.old) (F.seen shelf.new) result }
{
    match name {
        None => audited,
        Some(name) => save_under(audited, engine, name, notes, shelf),
    }
}

// The same in the file of a name.
fn save_under<N: Sink, F: Shelf>(
    audited: u8,
    engine: &Engine<ClassHeap>,
    name: &str,
    notes: &mut N,
    shelf: &mut F,
) -> u8
    requires { audited ≡ 0 → IsFit (world_of engine.now) }
    ensures { StoresEngine engine.now (Some name.now) audited (N.seen notes.old) (N.seen notes.new) (F.seen shelf.old) (F.seen shelf.new) result }
{
    if audited != 0 {
        return audited;
    }
    match save(engine.keyspace(), engine.moment(), name, shelf) {
        Ok(_) => 0,
        Err(_) => {
            note_fault(notes);
            NOT_SAVED
        }
    }
}
