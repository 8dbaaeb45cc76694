//! The engine, and what a request led to.

ghost use Rattle.std.specs.Prelude.{◌≡◌, ◌<◌, ◌⊎◌, None, Ok, false, true, max, IfOk, OnErr, is_err};
ghost use Rattle.outside.specs.Files.{IsListed};
ghost use Rattle.blocks.specs.Blocks.{no_blocks, Served};
ghost use Rattle.plain_model.specs.Meant.{meant, asks_to_quit, is_quit, IsAsked};
ghost use Rattle.object_codec.specs.Limits.{AreInRange};
ghost use Rattle.keyspace.specs.Sound.{Sound};
ghost use Rattle.keyspace.specs.Scopes.{Within};
ghost use Rattle.rdb_reader.specs.Forms.{AreNew};
ghost use Rattle.rdb_reader.specs.Fetching.{Counts, has_failed};
ghost use Rattle.rdb_reader.specs.Taken.{TakesFile};
ghost use Rattle.rdb_reader.specs.Loads.{Loads, load_scope};
ghost use Rattle.redis_core.specs.Engines.{world_of, keyspace_of, HasNoKey, IsNew, Stays, Keeps, Performs, Executes, is_memory};
ghost use Rattle.redis_core.specs.Background.{EngineRests, no_steps};
ghost use Rattle.redis_core.specs.Touched.{AsksNoMoves, MovesNone};
ghost use Rattle.redis_core.specs.Walking.{IsTidy, HasLeastSlabs, EndsPass};
ghost use Rattle.redis_core.specs.declared.background.StepsDone.{StepsDone};

use crate::answering::{answer, run};
use crate::background::{StepsDone, work};
use blocks::BlockStore;
use defrag::Walk;
use keyspace::Keyspace;
use object_codec::Limits;
use outside::{Host, Plan};
use plain_model::{Command, Ctx, Memory};
use rand_core::SeedableRng;
use rand_pcg::Pcg32;
use rdb_reader::{LoadFault, Loaded, load};
use resp_frames::Request;
use serving::{Done, Server};
use std::alloc::{AllocError, Global};
use std::marker::Model;

/// A keyspace that requests are run on, one after the other. At every exit its databases are sound: they own each live
/// block of the store exactly once.
///
/// An engine is spent from the first call on that answered `Memory`: each later `load` and `execute` answers `Memory`, and
/// what its databases hold isn't said.
#[derive(Drop)]
pub struct Engine<B: BlockStore> {
    keyspace: Keyspace<B>,
    selected: usize,
    last: u64,
    walk: Option<Walk>,
    is_spent: bool,
    dice: Pcg32,
}

impl<B: BlockStore> Model for Engine<B> {
    ghost use Rattle.std.specs.Coded.{codes};
    ghost use Rattle.stream_groups.specs.GroupsCode.{groups_code};
    ghost use Rattle.redis_core.specs.Engines.{State, IsEngine};

    ghost Value = { State B };

    ghost coded = { Prim.hlevel (codes, B.code, groups_code) };

    ghost view = { λ e. record { bases = e.keyspace.bases; store = e.keyspace.store; selected = e.selected; last = e.last; walk = e.walk; is_spent = e.is_spent } };

    ghost invariant = { λ e. IsEngine B.blocks e.keyspace.bases e.keyspace.store e.selected e.walk };
}

impl<B: BlockStore> Engine<B> {
    /// An engine without a key, over a store without a live block. Values are made with these limits, hashes with this seed,
    /// and random picks are drawn from it.
    pub fn new(alloc: Global, store: B, limits: Limits, seed: u64) -> Result<Engine<B>, Memory>
        requires empty { B.blocks store ≡ no_blocks }
        requires limits { AreInRange limits }
        ensures begun { IfOk result (λ engine. IsNew B.blocks engine) }
        ensures sound { IfOk result (λ engine. Sound engine.bases (B.blocks engine.store)) }
        ensures store { IfOk result (λ engine. engine.store ≡ store) }
        ensures limits { IfOk result (λ engine. engine.bases.limits ≡ limits) }
        ensures seed { IfOk result (λ engine. engine.bases.seed ≡ seed) }
    {
        let keyspace = Keyspace::new(alloc, store, limits, seed)?;
        Ok(Engine {
            keyspace,
            selected: 0,
            last: 0,
            walk: None,
            is_spent: false,
            dice: Pcg32::seed_from_u64(seed),
        })
    }

    // This moment, in milliseconds, counts as the last one that was used where it is later.
    fn observe(&mut self, moment: u64)
        ensures { self.new ≡ record self.old { last = max self.old.last moment } }
    {
        self.last = self.last.max(moment);
    }

    /// Does the work of a plan, without memory: so many expiry steps, then so many rehash steps, then so many steps of the walk
    /// that packs the store, of which one begins where none is open. The moment, in milliseconds, counts as the last one that was
    /// used where it is later. The answer says what was done.
    ///
    /// A spent engine does nothing.
    pub fn background(&mut self, plan: Plan, moment: u64) -> StepsDone
        ensures rests { self.old.is_spent ≡ false → EngineRests B.blocks B.heap B.step moment plan self.old self.new result }
        ensures tidy { self.old.is_spent ≡ false → plan.expire ≡ 0 → IsTidy B.blocks B.heap (keyspace_of self.old) self.old.walk → IsTidy B.blocks B.heap (keyspace_of self.new) self.new.walk }
        ensures least { self.old.is_spent ≡ false → plan.expire ≡ 0 → IsTidy B.blocks B.heap (keyspace_of self.old) self.old.walk → 0 < plan.defrag → self.new.walk ≡ None
            → HasLeastSlabs B.blocks B.heap (keyspace_of self.new) }
        ensures spent { self.old.is_spent ≡ true → (self.new ≡ self.old) × (result ≡ no_steps) }
    {
        if self.is_spent {
            return StepsDone::NONE;
        }
        self.observe(moment);
        work(&mut self.keyspace, &mut self.walk, plan, self.last)
    }

    /// Its databases and their store.
    pub fn keyspace(&self) -> &Keyspace<B>
        ensures keyspace { result.now ≡ keyspace_of self.now }
        ensures sound { Sound result.now.bases (B.blocks result.now.store) }
    {
        &self.keyspace
    }

    /// The last moment that it used, in milliseconds; 0 where it used none yet.
    pub fn moment(&self) -> u64
        ensures { result ≡ self.now.last }
    {
        self.last
    }

    /// Whether a call answered `Memory`.
    pub fn is_spent(&self) -> bool
        ensures { result ≡ self.now.is_spent }
    {
        self.is_spent
    }

    /// Loads the host's file of this name, of at most so many bytes, into an engine that has no key or is spent. Database 0
    /// is selected afterwards. The moment, in milliseconds, counts as the last one that was used where that is later.
    ///
    /// `Refused` comes exactly where the format excludes the file, with its first fault; `Host` exactly where the host's
    /// count of faults rose, before one byte more than the limit was taken; `Limit` exactly where the file has more bytes than
    /// the limit. After each fault, and want of memory, the engine has no key, so that another file may be loaded unless it is
    /// spent.
    ///
    /// The tables come from those before, after a fault also from none, by inserts and removals, and each value is encoded as one that is
    /// written anew: a collection in the least form that fits.
    pub fn load<H: Host>(
        &mut self,
        host: &mut H,
        name: &str,
        limit: u64,
        moment: u64,
    ) -> Result<Loaded, LoadFault>
        requires empty { HasNoKey B.blocks self.old ⊎ (self.old.is_spent ≡ true) }
        ensures loads { self.old.is_spent ≡ false → Loads (H.seen host.old).files name.now limit self.new.last (world_of B.blocks self.new) result }
        ensures none { self.old.is_spent ≡ false → OnErr result (HasNoKey B.blocks self.new) }
        ensures few { self.old.is_spent ≡ false → TakesFile (H.seen host.old).files name.now limit (H.seen host.new) (has_failed result) }
        ensures counts { Counts (H.seen host.old).reading.faults (H.seen host.new).reading.faults (((H.seen host.old).reading.sure ≡ true) × IsListed (H.seen host.old).files name.now) result }
        ensures moment { self.new.last ≡ max self.old.last moment }
        ensures spent { self.new.is_spent ≡ is_memory result }
        ensures spent_before { self.old.is_spent ≡ true → (result ≡ Err LoadFault.Memory) × Stays self.old self.new × (host.new ≡ host.old) }
        ensures keeps { Keeps B.blocks self.old self.new }
        ensures served { Served B.step self.old.store self.new.store }
        ensures walk { self.new.walk ≡ self.old.walk }
        ensures within { Within (load_scope result) self.old.bases self.new.bases (B.blocks self.old.store) (B.blocks self.new.store) }
        ensures form { self.old.is_spent ≡ false → AreNew self.new.bases (B.blocks self.new.store) }
    {
        self.observe(moment);
        if self.is_spent {
            return Err(LoadFault::Memory);
        }
        self.selected = 0;
        let alloc = self.keyspace.alloc();
        let loaded = load(alloc, host, name, limit, &mut self.keyspace, self.last);
        self.is_spent = matches!(loaded, Err(LoadFault::Memory));
        loaded
    }

    /// Runs one request, which is a step of the model. The moment, in milliseconds, counts as the last one that was used
    /// where that is later. A request that is refused changes no database and no block, and selects none; QUIT ends the run.
    /// Where no walk is open, a DEBUG DEFRAG that answers 1 leaves the least number of slabs.
    ///
    /// `Memory` where memory was refused in this call or an earlier one; then the open walk, or that none is open, stays.
    pub fn execute(&mut self, request: &Request<'_>, moment: u64) -> Result<Done, Memory>
        ensures executes { IfOk result (λ done. Executes B.blocks B.heap B.step moment self.old request.now done.reply self.new) }
        ensures quit { IfOk result (λ done. done.quit ≡ asks_to_quit request.now) }
        ensures moment { self.new.last ≡ max self.old.last moment }
        ensures spent { self.new.is_spent ≡ is_err result }
        ensures spent_before { self.old.is_spent ≡ true → (is_err result ≡ true) × Stays self.old self.new }
        ensures walk { is_err result ≡ true → self.new.walk ≡ self.old.walk }
        ensures keeps { Keeps B.blocks self.old self.new }
        ensures served { AsksNoMoves (meant request.now) → Served B.step self.old.store self.new.store }
        ensures least { self.old.walk ≡ None → IfOk result (λ done. EndsPass (meant request.now) done.reply → HasLeastSlabs B.blocks B.heap (keyspace_of self.new)) }
    {
        self.observe(moment);
        if self.is_spent {
            return Err(AllocError);
        }
        let at = Ctx {
            db: self.selected,
            moment: self.last,
        };
        match answer(
            &mut self.keyspace,
            &mut self.walk,
            &at,
            request,
            &mut self.dice,
        ) {
            Ok(answered) => {
                self.selected = answered.selected;
                Ok(Done {
                    reply: answered.reply,
                    quit: answered.quit,
                })
            }
            Err(_) => {
                self.is_spent = true;
                Err(AllocError)
            }
        }
    }
}

impl<B: BlockStore> Engine<B> {
    /// Runs one command, which is what the words of some request mean, as `execute` runs that request.
    ///
    /// `Memory` where memory was refused in this call or an earlier one; then the open walk, or that none is open, stays.
    pub fn perform(&mut self, command: &Command<'_>, moment: u64) -> Result<Done, Memory>
        requires { IsAsked command.now }
        ensures executes { IfOk result (λ done. Performs B.blocks B.heap B.step moment self.old (Ok command.now) done.reply self.new) }
        ensures quit { IfOk result (λ done. done.quit ≡ is_quit command.now) }
        ensures moment { self.new.last ≡ max self.old.last moment }
        ensures spent { self.new.is_spent ≡ is_err result }
        ensures spent_before { self.old.is_spent ≡ true → (is_err result ≡ true) × Stays self.old self.new }
        ensures walk { is_err result ≡ true → self.new.walk ≡ self.old.walk }
        ensures keeps { Keeps B.blocks self.old self.new }
        ensures served { MovesNone command.now → Served B.step self.old.store self.new.store }
        ensures least { self.old.walk ≡ None → IfOk result (λ done. EndsPass (Ok command.now) done.reply → HasLeastSlabs B.blocks B.heap (keyspace_of self.new)) }
    {
        self.observe(moment);
        if self.is_spent {
            return Err(AllocError);
        }
        let at = Ctx {
            db: self.selected,
            moment: self.last,
        };
        match run(
            &mut self.keyspace,
            &mut self.walk,
            &at,
            command,
            &mut self.dice,
        ) {
            Ok(answered) => {
                self.selected = answered.selected;
                Ok(Done {
                    reply: answered.reply,
                    quit: answered.quit,
                })
            }
            Err(_) => {
                self.is_spent = true;
                Err(AllocError)
            }
        }
    }

    /// The number of the database that is selected.
    pub fn db(&self) -> usize
        ensures is { result ≡ self.now.selected }
        ensures within { result < 16 }
    {
        self.selected
    }

    /// Selects a database.
    pub fn set_db(&mut self, db: usize)
        requires { db < 16 }
        ensures { self.new ≡ record self.old { selected = db } }
    {
        self.selected = db;
    }
}

impl<B: BlockStore> Server for Engine<B> {
    ghost executes = { λ moment old words reply new. Executes B.blocks B.heap B.step moment old words reply new };

    ghost works = { λ moment plan old new. (done : StepsDone) × EngineRests B.blocks B.heap B.step moment plan old new done };

    ghost quits = { asks_to_quit };

    ghost spent = { λ engine. engine.is_spent };

    fn execute(&mut self, request: &Request<'_>, moment: u64) -> Result<Done, Memory> {
        Engine::execute(self, request, moment)
    }

    fn background(&mut self, plan: Plan, moment: u64) {
        let _done = Engine::background(self, plan, moment);
    }
}
