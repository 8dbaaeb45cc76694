//! The call that may save.

ghost use Rattle.std.specs.Prelude.{◌≡◌, ◌^◌, ◌≤◌, [], map, string_bytes};
ghost use Rattle.object_codec.specs.Limits.{AreInRange};
ghost use Rattle.program_top.specs.Given.{Outside};
ghost use Rattle.program_top.specs.WordsRead.{options_read};
ghost use Rattle.saving_top.specs.Asked.{asked_by};
ghost use Rattle.saving_top.specs.AskedRead.{closing_read};
ghost use Rattle.saving_top.specs.TopAnswers.{ClosedAnswers, TopAnswers};

use crate::closing::{audit_left, save_left};
use crate::words::{Asked, Closing, read_asked};
use outside::{Clock, Host, Pacer, Shelf, Sink, Source};
use program_top::ending::Ending;
use program_top::notes::note;
use program_top::top_call::{run_given, run_open};
use program_top::words::Options;
use std::alloc::Global;

// Runs, and does what is asked for where the serving ends with status 0.
fn run_closed<H: Host, I: Source, O: Sink, N: Sink, F: Shelf>(
    alloc: Global,
    options: Options<'_>,
    closing: Closing<'_>,
    host: &mut H,
    input: &mut I,
    output: &mut O,
    notes: &mut N,
    clock: &mut Box<dyn Clock>,
    pacers: Vec<Box<dyn Pacer>>,
    shelf: &mut F,
) -> u8
    requires limits { AreInRange options.limits }
    requires limit { options.max_input ≤ 2 ^ 62 }
    ensures { let before : Outside = record {
      host = H.seen host.old;
      input = I.seen input.old;
      output = O.seen output.old;
      notes = N.seen notes.old;
      clock = answers clock.old;
      pacers =
          map (λ b. (⟦<dyn Pacer as Pacer>⟧ b.vtable).pacing b.value) pacers.items;
    } in
        let after : Outside = record { host = H.seen host.new; input = I.seen input.new; output = O.seen output.new; notes = N.seen notes.new; clock = answers clock.new; pacers = [] } in
        ClosedAnswers (options_read options.entry) (closing_read closing.entry) before after (F.seen shelf.old) (F.seen shelf.new) result }
{
    let (ending, left) = run_open(alloc, options, host, input, output, notes, clock, pacers);
    match left {
        Some(engine) => {
            let audited = audit_left(alloc, closing.audit, ending.status(), &engine, notes);
            save_left(audited, &engine, closing.save, notes, shelf)
        }
        None => ending.status(),
    }
}

/// Runs as [`redis_core`](program_top::top_call::redis_core) does, and where that ends with status 0 does what else the words ask for: tells
/// what stands in the slabs of the last engine, in the notes, and then saves in a file what it holds, live at the last moment
/// that it used and with database 0 selected.
///
/// The words are those of `redis_core`, `--audit` and `--save FILE`, which beside `--generate` are wrong usage. What stands in the
/// slabs is a line for each class of lengths that has one, `class S slabs N needed M tree T other O`: the greatest length of its
/// blocks in bytes, its slabs, the least number that its blocks need, and how many nodes of streams' trees and how many other
/// blocks stand in them. Want of memory for that is status 8. The file is of the RDB format, version 11. Where the shelf fails the status is
/// 10 in place of 0, and its line is noted. Every other status saves nothing, and without `--save` the shelf is left alone.
#[tactic(none)]
pub fn redis_core_save<H: Host, I: Source, O: Sink, N: Sink, F: Shelf>(
    alloc: Global,
    words: &[String],
    host: &mut H,
    input: &mut I,
    output: &mut O,
    notes: &mut N,
    clock: &mut Box<dyn Clock>,
    pacers: Vec<Box<dyn Pacer>>,
    shelf: &mut F,
) -> u8
    ensures { let before : Outside = record {
      host = H.seen host.old;
      input = I.seen input.old;
      output = O.seen output.old;
      notes = N.seen notes.old;
      clock = answers clock.old;
      pacers =
          map (λ b. (⟦<dyn Pacer as Pacer>⟧ b.vtable).pacing b.value) pacers.items;
    } in
        let after : Outside = record { host = H.seen host.new; input = I.seen input.new; output = O.seen output.new; notes = N.seen notes.new; clock = answers clock.new; pacers = [] } in
        TopAnswers (asked_by (map string_bytes words.now)) before after (F.seen shelf.old) (F.seen shelf.new) result }
{
    match read_asked(alloc, words) {
        Ok(Asked::Plain(given)) => {
            run_given(alloc, given, host, input, output, notes, clock, pacers).status()
        }
        Ok(Asked::Closed(options, closing)) => run_closed(
            alloc, options, closing, host, input, output, notes, clock, pacers, shelf,
        ),
        Err(_) => {
            note(notes, Ending::Memory);
            Ending::Memory.status()
        }
    }
}
