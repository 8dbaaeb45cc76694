//! A run of generated commands.

ghost use Rattle.std.specs.Prelude.{◌≡◌, ◌∷◌, [], map, pos, IfOk};
ghost use Rattle.object_codec.specs.Limits.{AreInRange};
ghost use Rattle.program_top.specs.Generating.{IsCount, GeneratesOn, Writes};
ghost use Rattle.program_top.specs.WordsRead.{options_read};

use crate::ending::Ending;
use crate::starting::begin;
use crate::words::Options;
use generator::{lines, run_commands};
use outside::{Conductor, Pacer, Sink};
use plain_world::{Part, Reply};
use resp_frames::put_all;
use std::alloc::{AllocError, Global};

// The number that a reply is.
fn count_in(reply: &Reply) -> u64
    requires { IsCount reply.now }
    ensures { reply.now ≡ Part.Number (pos result) ∷ [] }
{
    match reply.parts().first() {
        Some(Part::Number(n)) => n.unsigned_abs(),
        _ => 0,
    }
}

// The lines of so many commands, run on an engine without a key.
fn run_lines(
    alloc: Global,
    options: Options<'_>,
    count: u64,
    pacers: Vec<Box<dyn Pacer>>,
) -> Result<Vec<u8>, AllocError>
    requires { AreInRange options.limits }
    ensures { IfOk result (λ text. GeneratesOn (options_read options.entry) count (map (λ b. (⟦<dyn Pacer as Pacer>⟧ b.vtable).pacing b.value) pacers.items) text.items) }
{
    let mut engine = match begin(alloc, options.limits, options.seed) {
        Ok(engine) => engine,
        Err(_) => return Err(AllocError),
    };
    let mut conductor = Conductor::new(pacers, options.effort);
    let sums = run_commands(alloc, &mut engine, &mut conductor, options.seed, count)?;
    lines(alloc, count, count_in(&sums.size), sums.crc)
}

/// Runs so many generated commands on an engine without a key, with these options, and puts their three lines: how many they
/// are, how many keys database 0 has then, and the CRC of all replies.
pub fn generate<O: Sink>(
    alloc: Global,
    options: Options<'_>,
    count: u64,
    output: &mut O,
    pacers: Vec<Box<dyn Pacer>>,
) -> Ending
    requires { AreInRange options.limits }
    ensures { Writes (GeneratesOn (options_read options.entry) count (map (λ b. (⟦<dyn Pacer as Pacer>⟧ b.vtable).pacing b.value) pacers.items)) (O.seen output.old) (O.seen output.new) result }
{
    let text = match run_lines(alloc, options, count, pacers) {
        Ok(text) => text,
        Err(_) => return Ending::Memory,
    };
    match put_all(output, &text) {
        Ok(()) => Ending::Whole,
        Err(_) => Ending::WriteFault,
    }
}
