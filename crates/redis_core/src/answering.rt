//! One request by its command's own function.

ghost use Rattle.std.specs.Prelude.{◌≡◌, ℕ, Ok, IfOk, IfErr, IfSome, IfNone, IsTrue, IsFalse};
ghost use Rattle.plain_model.specs.Outcomes.{IsRefusal};
ghost use Rattle.redis_core.specs.Touched.{IsCommon, Settles};
ghost use Rattle.redis_core.specs.Walking.{IsOpen, IsDefragged};
ghost use Rattle.plain_model.specs.Meant.{meant, IsAsked, is_quit};
ghost use Rattle.plain_model.specs.declared.command.Command.TheVariants.{Connection};
ghost use Rattle.keyspace.specs.Commands.{Ready, Runs};
ghost use Rattle.keyspace.specs.Databases.{means, SameSettings};
ghost use Rattle.keyspace.specs.Sound.{Sound};
ghost use Rattle.redis_core.specs.Engines.{Answers, own_command, answered_with};

use crate::background::defragment;
use crate::settling::{settle, touched_by};
use blocks::BlockStore;
use cmd_hashes::run_hashes;
use cmd_keys::{debug_rehash, memory_slabs, run_connection, run_keys};
use cmd_lists::run_lists;
use cmd_sets::run_sets;
use cmd_streams::run_streams;
use cmd_values::run_strings;
use cmd_zsets::run_zsets;
use command_table::{ReadingFault, read};
use defrag::Walk;
use keyspace::Keyspace;
use plain_model::{Command, ConnectionCommand, Ctx, Line, Memory, Part, Reply};
use rand_pcg::Pcg32;
use resp_frames::Request;
use std::alloc::AllocError;

/// What a request led to.
#[derive(Drop)]
pub struct Executed {
    pub reply: Reply,
    /// The database that is selected afterwards, by its number below 16.
    pub selected: usize,
    /// Whether the request ends the run.
    pub quit: bool,
}

/// A command that the engine answers itself, since it needs more than a keyspace, or leaves it as no other command does.
pub enum Own {
    /// SELECT, with a database.
    Select(usize),
    /// DEBUG REHASH, with a number of steps.
    Rehash(u32),
    /// DEBUG DEFRAG, with a number of steps.
    Defrag(u32),
    /// MEMORY SLABS.
    Slabs,
}

// The command as one that the engine answers itself, if it is one.
fn own_of(command: &Command<'_>) -> Option<Own>
    ensures some { IfSome result (λ own. command.now ≡ Connection (own_command own)) }
    ensures none { IfNone result (IsCommon command.now) }
{
    match command {
        Command::Connection(ConnectionCommand::Select(number)) => Some(Own::Select(*number)),
        Command::Connection(ConnectionCommand::DebugRehash(steps)) => Some(Own::Rehash(*steps)),
        Command::Connection(ConnectionCommand::DebugDefrag(steps)) => Some(Own::Defrag(*steps)),
        Command::Connection(ConnectionCommand::MemorySlabs) => Some(Own::Slabs),
        _ => None,
    }
}

// Whether a command ends the run.
fn ends_run(command: &Command<'_>) -> bool
    ensures { result ≡ is_quit command.now }
{
    matches!(command, Command::Connection(ConnectionCommand::Quit))
}

// Runs a common command of any family.
fn run_family<B: BlockStore>(
    keyspace: &mut Keyspace<B>,
    at: &Ctx,
    command: &Command<'_>,
    dice: &mut Pcg32,
) -> Result<Reply, Memory>
    requires ready { Ready B.blocks keyspace.old at.now }
    requires asked { IsAsked command.now }
    requires common { IsCommon command.now }
    ensures { Runs B.blocks B.step keyspace.old keyspace.new at.now command.now result }
{
    match command {
        Command::Strings(own) => run_strings(keyspace, at, own),
        Command::Lists(own) => run_lists(keyspace, at, own),
        Command::Sets(own) => run_sets(keyspace, at, own, dice),
        Command::Hashes(own) => run_hashes(keyspace, at, own, dice),
        Command::Zsets(own) => run_zsets(keyspace, at, own, dice),
        Command::Streams(own) => run_streams(keyspace, at, own),
        Command::Keys(own) => run_keys(keyspace, at, own, dice),
        Command::Connection(own) => run_connection(keyspace, at, own),
    }
}

// Whether a reply is an error.
fn is_refusal(reply: &Reply) -> bool
    ensures refused { IsTrue result → IsRefusal reply.now }
    ensures calm { IsFalse result → IsRefusal reply.now → ⊥ }
{
    match reply.parts() {
        [Part::Refused(_), ..] => true,
        _ => false,
    }
}

// Runs a common command. Where it isn't refused, the tables of the databases that it may have changed are made smaller where
// their elements are few.
fn run_settled<B: BlockStore>(
    keyspace: &mut Keyspace<B>,
    at: &Ctx,
    command: &Command<'_>,
    dice: &mut Pcg32,
) -> Result<Reply, Memory>
    requires ready { Ready B.blocks keyspace.old at.now }
    requires asked { IsAsked command.now }
    requires common { IsCommon command.now }
    ensures runs { Runs B.blocks B.step keyspace.old keyspace.new at.now command.now result }
    ensures settles { IfOk result (λ reply. Settles keyspace.old.bases keyspace.new.bases (B.blocks keyspace.old.store) (B.blocks keyspace.new.store)) }
{
    match run_family(keyspace, at, command, dice) {
        Ok(reply) => {
            if is_refusal(&reply) {
                return Ok(reply);
            }
            match settle(keyspace, touched_by(command, at.db)) {
                Ok(()) => Ok(reply),
                Err(error) => Err(error),
            }
        }
        Err(error) => Err(error),
    }
}

// DEBUG DEFRAG: steps of the walk, and 1 where its pass ended, else 0. Both replies are made first, so that want of memory
// leaves all.
fn debug_defrag<B: BlockStore>(
    keyspace: &mut Keyspace<B>,
    walk: &mut Option<Walk>,
    steps: u32,
) -> Result<Reply, Memory>
    requires sound { Sound keyspace.old.bases (B.blocks keyspace.old.store) }
    requires walking { IsOpen walk.old }
    ensures defragged { IfOk result (λ reply. IsDefragged B.blocks B.heap keyspace.old keyspace.new walk.old walk.new steps reply) }
    ensures err { IfErr result (λ e. (keyspace.new ≡ keyspace.old) × (walk.new ≡ walk.old)) }
    ensures sound { Sound keyspace.new.bases (B.blocks keyspace.new.store) }
    ensures walking { IsOpen walk.new }
    ensures means { (number : ℕ) → means number keyspace.new.bases (B.blocks keyspace.new.store) ≡ means number keyspace.old.bases (B.blocks keyspace.old.store) }
    ensures settings { SameSettings keyspace.old.bases keyspace.new.bases }
{
    let alloc = keyspace.alloc();
    let goes_on = Reply::number(alloc, 0)?;
    let ended = Reply::number(alloc, 1)?;
    if defragment(keyspace, walk, steps) {
        Ok(ended)
    } else {
        Ok(goes_on)
    }
}

// What a reply leads to.
fn replied(reply: Result<Reply, Memory>, selected: usize, quit: bool) -> Result<Executed, Memory>
    ensures { result ≡ answered_with selected quit reply }
{
    match reply {
        Ok(reply) => Ok(Executed {
            reply,
            selected,
            quit,
        }),
        Err(error) => Err(error),
    }
}

/// Runs a command of any family. No table is made smaller after DEBUG.
pub fn run<B: BlockStore>(
    keyspace: &mut Keyspace<B>,
    walk: &mut Option<Walk>,
    at: &Ctx,
    command: &Command<'_>,
    dice: &mut Pcg32,
) -> Result<Executed, Memory>
    requires ready { Ready B.blocks keyspace.old at.now }
    requires walking { IsOpen walk.old }
    requires asked { IsAsked command.now }
    ensures answers { Answers B.blocks B.heap B.step keyspace.old keyspace.new walk.old walk.new at.now (Ok command.now) result }
    ensures walking { IsOpen walk.new }
{
    match own_of(command) {
        Some(Own::Select(number)) => {
            replied(Reply::simple(keyspace.alloc(), Line::ok()), number, false)
        }
        Some(Own::Rehash(steps)) => replied(debug_rehash(keyspace, steps), at.db, false),
        Some(Own::Defrag(steps)) => replied(debug_defrag(keyspace, walk, steps), at.db, false),
        Some(Own::Slabs) => replied(memory_slabs(keyspace), at.db, false),
        None => replied(
            run_settled(keyspace, at, command, dice),
            at.db,
            ends_run(command),
        ),
    }
}

// Drops a command, apart from all else that its caller holds: the variants are many, and a proof goes through each.
fn discard(_command: Command<'_>) {}

/// Answers a request: reads its words, and runs the command that they mean. Random picks are drawn from the dice, and DEBUG
/// DEFRAG makes steps of the walk.
pub fn answer<B: BlockStore>(
    keyspace: &mut Keyspace<B>,
    walk: &mut Option<Walk>,
    at: &Ctx,
    request: &Request<'_>,
    dice: &mut Pcg32,
) -> Result<Executed, Memory>
    requires ready { Ready B.blocks keyspace.old at.now }
    requires walking { IsOpen walk.old }
    ensures answers { Answers B.blocks B.heap B.step keyspace.old keyspace.new walk.old walk.new at.now (meant request.now) result }
    ensures walking { IsOpen walk.new }
{
    let alloc = keyspace.alloc();
    match read(alloc, request) {
        Ok(command) => {
            let answered = run(keyspace, walk, at, &command, dice);
            discard(command);
            answered
        }
        Err(ReadingFault::Refused(refusal)) => {
            replied(Reply::refused(alloc, refusal), at.db, false)
        }
        Err(ReadingFault::Memory) => Err(AllocError),
    }
}
