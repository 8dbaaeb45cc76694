//! A run of commands.

ghost use Rattle.std.specs.Prelude.{◌≡◌, ◌+◌, ℕ, List, false, IfOk, OnOk};
ghost use Rattle.digests.specs.Crc.{crc_of};
ghost use Rattle.outside.specs.Pacing.{following};
ghost use Rattle.plain_world.specs.Spelling.{spelling};
ghost use Rattle.plain_world.specs.declared.reply.Part.{Part};
ghost use Rattle.rand_pcg.specs.Lcg.{advance};
ghost use Rattle.rand_pcg.specs.Pcg.{multiplier_64};
ghost use Rattle.serving.specs.Timed.{Works};
ghost use Rattle.generator.specs.Generated.{drawn_words, Answers, AsksSize, Generates};

use crate::drawing::draw_request;
use crate::executing::execute_bytes;
use crate::spelled::{Spelled, sum_reply};
use outside::{Conductor, Pacer};
use plain_world::{Memory, Reply};
use rand_core::SeedableRng;
use rand_pcg::Pcg32;
use serving::Server;
use std::alloc::Global;

/// What a run of commands came to.
#[derive(Drop)]
pub struct Sums {
    /// The reply to a DBSIZE of database 0 behind the last command, at that one's moment.
    pub size: Reply,
    /// The CRC of the bytes of the commands' replies, one after the other.
    pub crc: u64,
}

// What stays from one command to the next.
#[derive(Drop)]
struct Running {
    dice: Pcg32,
    request: Vec<u8>,
    spelled: Spelled,
    crc: u64,
}

// Does the work that is planned next, at this moment.
fn rest<E: Server>(engine: &mut E, conductor: &mut Conductor, moment: u64)
    requires alive { E.spent engine.old ≡ false }
    ensures { Works E.works moment engine.old engine.new (following (λ b. (⟦<dyn Pacer as Pacer>⟧ b.vtable).pacing b.value) conductor.old)
        (following (λ b. (⟦<dyn Pacer as Pacer>⟧ b.vtable).pacing b.value) conductor.new) }
{
    engine.background(conductor.next(), moment);
}

// The next command is drawn and answered at this moment, and what is planned is done.
fn run_one<E: Server>(
    alloc: Global,
    running: &mut Running,
    engine: &mut E,
    conductor: &mut Conductor,
    moment: u64,
) -> Result<(), Memory>
    ensures answers { OnOk result
        ((reply : List Part) × Answers E.executes E.works moment (drawn_words running.old.dice)
        (record { engine = engine.old; pacers = following (λ b. (⟦<dyn Pacer as Pacer>⟧ b.vtable).pacing b.value) conductor.old })
        (record { engine = engine.new; pacers = following (λ b. (⟦<dyn Pacer as Pacer>⟧ b.vtable).pacing b.value) conductor.new }) reply
        × (running.new.crc ≡ crc_of running.old.crc (spelling reply))) }
    ensures dice { OnOk result (running.new.dice ≡ advance 64 multiplier_64 2 running.old.dice) }
{
    draw_request(&mut running.dice, &mut running.request)?;
    let reply = execute_bytes(alloc, engine, &running.request, moment)?;
    running.crc = sum_reply(&mut running.spelled, running.crc, &reply)?;
    rest(engine, conductor, moment);
    Ok(())
}

// Asks for the number of keys of database 0: SELECT 0, and then DBSIZE.
fn ask_size<E: Server>(alloc: Global, engine: &mut E, moment: u64) -> Result<Reply, Memory>
    ensures { IfOk result (λ size. AsksSize E.executes moment engine.old engine.new size) }
{
    execute_bytes(alloc, engine, b"*2\r\n$6\r\nSELECT\r\n$1\r\n0\r\n", moment)?;
    execute_bytes(alloc, engine, b"*1\r\n$6\r\nDBSIZE\r\n", moment)
}

/// Draws so many commands by the seed, and runs each on the engine at the moment of its number, the first of which is 1. After
/// each a plan is asked of the conductor, and done. `Memory` where memory was refused.
pub fn run_commands<E: Server>(
    alloc: Global,
    engine: &mut E,
    conductor: &mut Conductor,
    seed: u64,
    count: u64,
) -> Result<Sums, Memory>
    ensures { IfOk result
        (λ sums. Generates E.executes E.works seed count (record { engine = engine.old; pacers = following (λ b. (⟦<dyn Pacer as Pacer>⟧ b.vtable).pacing b.value) conductor.old })
        engine.new sums.size sums.crc) }
{
    let mut running = Running {
        dice: Pcg32::seed_from_u64(seed),
        request: Vec::new(alloc),
        spelled: Spelled::new(alloc),
        crc: 0,
    };
    for past in 0..count {
        run_one(alloc, &mut running, engine, conductor, past + 1)?;
    }
    let size = ask_size(alloc, engine, count)?;
    Ok(Sums {
        size,
        crc: running.crc,
    })
}
