//! How a run begins.

ghost use Rattle.std.specs.Prelude.{◌≡◌, ◌≤◌, ◌^◌, IfOk, IfErr, is_err};
ghost use Rattle.object_codec.specs.Limits.{AreInRange};
ghost use Rattle.rdb_reader.specs.Taken.{TakesFile};
ghost use Rattle.program_top.specs.Engines.{world_of, IsFirst, Begun};
ghost use Rattle.program_top.specs.WordsRead.{options_read};
ghost use Rattle.program_top.specs.Starting.{UsesHost, CountsHost};
ghost use Rattle.program_top.specs.Started.{Starts, LoadsNamed, host_failed, ending_by};

use crate::ending::Ending;
use crate::words::Options;
use class_heap::ClassHeap;
use object_codec::Limits;
use outside::{Host, Plan};
use rdb_reader::LoadFault;
use redis_core::Engine;
use std::alloc::Global;

// A plan of no step.
const NOTHING: Plan = Plan {
    rehash: 0,
    defrag: 0,
    expire: 0,
};

// The ending of a run whose file is not loaded.
fn not_loaded(fault: LoadFault) -> Ending
    ensures { result ≡ ending_by fault }
{
    match fault {
        LoadFault::Refused { kind, at } => Ending::Refused { kind, at },
        LoadFault::Host => Ending::Host,
        LoadFault::Limit => Ending::Limit,
        LoadFault::Memory => Ending::Memory,
    }
}

/// An engine without a key.
pub fn begin(alloc: Global, limits: Limits, seed: u64) -> Result<Engine<ClassHeap>, Ending>
    requires { AreInRange limits }
    ensures begun { IfOk result (λ engine. Begun seed limits engine) }
    ensures memory { IfErr result (λ ending. ending ≡ Ending.Memory) }
{
    match Engine::new(alloc, ClassHeap::new(alloc), limits, seed) {
        Ok(engine) => Ok(engine),
        Err(_) => Err(Ending::Memory),
    }
}

// Loads the host's file of this name.
fn load_file<H: Host>(
    engine: &mut Engine<ClassHeap>,
    host: &mut H,
    name: &str,
    limit: u64,
    moment: u64,
) -> Result<(), Ending>
    requires { Begun engine.old.bases.seed engine.old.bases.limits engine.old }
    ensures loads { LoadsNamed (H.seen host.old).files limit name.now moment (world_of engine.new) result }
    ensures first { IsFirst engine.old.bases.seed engine.old.bases.limits engine.new }
    ensures moment { engine.new.last ≡ moment }
    ensures host { CountsHost (H.seen host.old) (H.seen host.new) name.now (host_failed result) }
    ensures few { TakesFile (H.seen host.old).files name.now limit (H.seen host.new) (host_failed result) }
{
    match engine.load(host, name, limit, moment) {
        Ok(_) => Ok(()),
        Err(fault) => Err(not_loaded(fault)),
    }
}

/// The engine of a run with these options, at its first moment: without a key, or with those of the file that is named.
/// `Err` says how the run ends, where nothing is to be served.
pub fn start<H: Host>(
    alloc: Global,
    options: Options<'_>,
    host: &mut H,
    moment: u64,
) -> Result<Engine<ClassHeap>, Ending>
    requires { AreInRange options.limits }
    ensures starts { Starts (H.seen host.old).files (options_read options.entry) moment result }
    ensures host { UsesHost (options_read options.entry).max_input (options_read options.entry).file (H.seen host.old) (H.seen host.new) (host_failed result) }
{
    let mut engine = match begin(alloc, options.limits, options.seed) {
        Ok(engine) => engine,
        Err(ending) => return Err(ending),
    };
    match options.file {
        None => {
            let _done = engine.background(NOTHING, moment);
            Ok(engine)
        }
        Some(name) => match load_file(&mut engine, host, name, options.max_input, moment) {
            Ok(()) => Ok(engine),
            Err(ending) => Err(ending),
        },
    }
}
