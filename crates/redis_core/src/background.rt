//! What is done between commands.

ghost use Rattle.std.specs.Prelude.{◌≡◌, ◌<◌, ℕ};
ghost use Rattle.keyspace.specs.Databases.{means, SameSettings};
ghost use Rattle.keyspace.specs.Sound.{Sound};
ghost use Rattle.redis_core.specs.Background.{DoesPlan};
ghost use Rattle.redis_core.specs.Walking.{IsOpen, Opens, WalksOn, Packs, Defrags, passes};

use blocks::BlockStore;
use defrag::{Visit, Walk};
use keyspace::Keyspace;
use outside::Plan;

/// What was done of a plan.
#[derive(Clone, Copy, Debug, PartialEq, Eq)]
pub struct StepsDone {
    /// The rehash steps that found a table.
    pub rehash: u32,
    /// The steps of the walk.
    pub defrag: u32,
    /// The keys that were dropped, as they were gone.
    pub expired: u64,
}

impl StepsDone {
    /// No step.
    pub const NONE: StepsDone = StepsDone {
        rehash: 0,
        defrag: 0,
        expired: 0,
    };
}

// The walk that is open, or one that begins.
fn opened<B: BlockStore>(keyspace: &mut Keyspace<B>, walk: Option<Walk>) -> Walk
    requires walking { IsOpen walk }
    ensures opens { Opens B.blocks B.heap keyspace.old keyspace.new walk result }
    ensures bases { keyspace.new.bases ≡ keyspace.old.bases }
    ensures blocks { B.blocks keyspace.new.store ≡ B.blocks keyspace.old.store }
    ensures within { result.database < 16 }
{
    match walk {
        Some(walk) => walk,
        None => Walk::start(keyspace),
    }
}

// Makes one step of the walk that is open, or of one that begins. The answer is the walk that it leaves open.
fn walk_on<B: BlockStore>(keyspace: &mut Keyspace<B>, walk: Option<Walk>) -> Option<Walk>
    requires sound { Sound keyspace.old.bases (B.blocks keyspace.old.store) }
    requires walking { IsOpen walk }
    ensures walks { WalksOn B.blocks B.heap keyspace.old keyspace.new walk result }
    ensures sound { Sound keyspace.new.bases (B.blocks keyspace.new.store) }
    ensures walking { IsOpen result }
    ensures means { (number : ℕ) → means number keyspace.new.bases (B.blocks keyspace.new.store) ≡ means number keyspace.old.bases (B.blocks keyspace.old.store) }
    ensures settings { SameSettings keyspace.old.bases keyspace.new.bases }
{
    let mut place = opened(keyspace, walk);
    match place.step(keyspace) {
        Visit::More => Some(place),
        Visit::Done => None,
    }
}

// Makes so many steps of the walk.
fn pack<B: BlockStore>(keyspace: &mut Keyspace<B>, walk: &mut Option<Walk>, steps: u32)
    requires sound { Sound keyspace.old.bases (B.blocks keyspace.old.store) }
    requires walking { IsOpen walk.old }
    ensures packs { Packs B.blocks B.heap keyspace.old walk.old steps keyspace.new walk.new }
    ensures sound { Sound keyspace.new.bases (B.blocks keyspace.new.store) }
    ensures walking { IsOpen walk.new }
    ensures means { (number : ℕ) → means number keyspace.new.bases (B.blocks keyspace.new.store) ≡ means number keyspace.old.bases (B.blocks keyspace.old.store) }
    ensures settings { SameSettings keyspace.old.bases keyspace.new.bases }
{
    for _ in 0..steps {
        *walk = walk_on(keyspace, *walk);
    }
}

/// Makes steps of the walk that is open, or of one that begins, until so many are made or its pass ends. Whether it ended is
/// answered.
pub fn defragment<B: BlockStore>(
    keyspace: &mut Keyspace<B>,
    walk: &mut Option<Walk>,
    steps: u32,
) -> bool
    requires sound { Sound keyspace.old.bases (B.blocks keyspace.old.store) }
    requires walking { IsOpen walk.old }
    ensures defrags { Defrags B.blocks B.heap steps keyspace.old keyspace.new walk.old walk.new (passes result) }
    ensures sound { Sound keyspace.new.bases (B.blocks keyspace.new.store) }
    ensures walking { IsOpen walk.new }
    ensures means { (number : ℕ) → means number keyspace.new.bases (B.blocks keyspace.new.store) ≡ means number keyspace.old.bases (B.blocks keyspace.old.store) }
    ensures settings { SameSettings keyspace.old.bases keyspace.new.bases }
{
    for _ in 0..steps {
        match walk_on(keyspace, *walk) {
            Some(place) => *walk = Some(place),
            None => {
                *walk = None;
                return true;
            }
        }
    }
    false
}

/// Does the work of a plan over a keyspace and the walk that may be open, at this moment in milliseconds.
pub fn work<B: BlockStore>(
    keyspace: &mut Keyspace<B>,
    walk: &mut Option<Walk>,
    plan: Plan,
    moment: u64,
) -> StepsDone
    requires sound { Sound keyspace.old.bases (B.blocks keyspace.old.store) }
    requires walking { IsOpen walk.old }
    ensures works { DoesPlan B.blocks B.heap B.step moment plan keyspace.old keyspace.new walk.old walk.new result }
    ensures walking { IsOpen walk.new }
{
    let expired = keyspace.expire(plan.expire, moment);
    let rehash = keyspace.rehash(plan.rehash);
    pack(keyspace, walk, plan.defrag);
    StepsDone {
        rehash,
        defrag: plan.defrag,
        expired,
    }
}
