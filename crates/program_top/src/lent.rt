//! Serving with an engine that is lent.

ghost use Rattle.std.specs.Prelude.{◌≡◌, ◌≤◌, ◌<◌, ◌^◌, false};
ghost use Rattle.outside.specs.Pacing.{following};
ghost use Rattle.serving.specs.Timed.{Timed};
ghost use Rattle.program_top.specs.Lent.{Streams, GoesNoted, Lent};
ghost use Rattle.program_top.specs.Engines.{Engine as EngineSeen};

use crate::ending::served_to;
use crate::notes::note;
use class_heap::ClassHeap;
use outside::{Clock, Conductor, Pacer, Sink, Source};
use redis_core::Engine;
use serving::{Ended, serve_input};
use std::alloc::Global;

/// Serves the requests of the input with this engine, and puts the line of how that ended into the notes.
pub fn serve_noted<I: Source, O: Sink, N: Sink>(
    alloc: Global,
    engine: &mut Engine<ClassHeap>,
    input: &mut I,
    output: &mut O,
    notes: &mut N,
    clock: &mut Box<dyn Clock>,
    conductor: &mut Conductor,
    limit: u64,
) -> Ended
    requires { limit ≤ 2 ^ 62 }
    ensures { let before : Streams = record { input = I.seen input.old; output = O.seen output.old; notes = N.seen notes.old } in
        let after : Streams = record { input = I.seen input.new; output = O.seen output.new; notes = N.seen notes.new } in
        let first : Timed EngineSeen = record { engine = engine.old; clock = answers clock.old; pacers = following (λ b. (⟦<dyn Pacer as Pacer>⟧ b.vtable).pacing b.value) conductor.old } in
        let last : Timed EngineSeen = record { engine = engine.new; clock = answers clock.new; pacers = following (λ b. (⟦<dyn Pacer as Pacer>⟧ b.vtable).pacing b.value) conductor.new } in
        GoesNoted limit before after first last result }
{
    let ended = serve_input(alloc, engine, clock, conductor, input, output, limit);
    note(notes, served_to(ended));
    ended
}

/// Serves the requests of the input with this engine, at the moments of the clock, in milliseconds. After each request but the
/// last one it asks the conductor for a plan and does that. At most so many bytes are taken: 1 to 2^62.
///
/// The status is 0, 2, 3, 4, 5, 8 or 9, as that of a whole run, and its line is in the notes. The engine is spent afterwards only
/// where it is 8.
pub fn serve<I: Source, O: Sink, N: Sink>(
    alloc: Global,
    engine: &mut Engine<ClassHeap>,
    input: &mut I,
    output: &mut O,
    notes: &mut N,
    clock: &mut Box<dyn Clock>,
    conductor: &mut Conductor,
    limit: u64,
) -> u8
    requires alive { engine.old.is_spent ≡ false }
    requires some { 0 < limit }
    requires most { limit ≤ 2 ^ 62 }
    ensures { let before : Streams = record { input = I.seen input.old; output = O.seen output.old; notes = N.seen notes.old } in
        let after : Streams = record { input = I.seen input.new; output = O.seen output.new; notes = N.seen notes.new } in
        let first : Timed EngineSeen = record { engine = engine.old; clock = answers clock.old; pacers = following (λ b. (⟦<dyn Pacer as Pacer>⟧ b.vtable).pacing b.value) conductor.old } in
        let last : Timed EngineSeen = record { engine = engine.new; clock = answers clock.new; pacers = following (λ b. (⟦<dyn Pacer as Pacer>⟧ b.vtable).pacing b.value) conductor.new } in
        Lent limit before after first last result }
{
    served_to(serve_noted(alloc, engine, input, output, notes, clock, conductor, limit)).status()
}
