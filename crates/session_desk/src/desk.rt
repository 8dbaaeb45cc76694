//! The sessions at one engine.

ghost use Rattle.std.specs.Prelude.{◌≡◌, ◌||◌, ◌<◌, ◌≤◌, ℕ, [], Option, true, false, max, vec_len, IfOk, OnOk, OnErr};
ghost use Rattle.std.specs.List.{All};
ghost use Rattle.plain_world.specs.Worlds.{Entry};
ghost use Rattle.plain_model.specs.Meant.{asks_to_quit};
ghost use Rattle.plain_sessions.specs.Transactions.{asked_of};
ghost use Rattle.session_desk.specs.Engines.{seen};
ghost use Rattle.session_desk.specs.Kept.{all_kept, session_at, new_kept, turned};
ghost use Rattle.session_desk.specs.Watching.{AreReviewed, IsWithin, IsSilent, NoneWatch};
ghost use Rattle.session_desk.specs.Passing.{Passed};
ghost use Rattle.session_desk.specs.Writing.{IsAmong, IsMeant, SomeWrite, MayHaveWritten};
ghost use Rattle.session_desk.specs.Answered.{RanQueue};
ghost use Rattle.session_desk.specs.Desks.{AnswersOf, Serves, DeskAnswers, DeskRests};

use crate::answering::{Answered, Ran, answer_session};
use crate::engine::DeskEngine;
use crate::naming::written_behind;
use crate::session::Session;
use crate::watching::review_all;
use crate::writing::{Written, written_by};
use outside::Plan;
use plain_world::Memory;
use request_queue::Queue;
use resp_frames::Request;
use serving::{Done, Server};
use session_server::Sessions;
use std::alloc::{AllocError, Global};
use std::marker::Model;

/// Sessions, which ask one engine in turn (Redis documentation, "Transactions"). Each has a database of its own, which is 0 at
/// first; inside MULTI a queue; and watched keys. A session is kept from its first request on.
///
/// A desk is spent from the first call on that answered `Memory`: each later request is answered so.
#[derive(Drop)]
pub struct Desk<E: DeskEngine> {
    alloc: Global,
    engine: E,
    // by their numbers; one that isn't there said nothing yet
    sessions: Vec<Session<E::Told>>,
    current: u16,
    // whether some may watch a key; where it is false, none does
    may_watch: bool,
    is_spent: bool,
}

impl<E: DeskEngine> Model for Desk<E> {
    ghost use Rattle.std.specs.Coded.{codes};
    ghost use Rattle.stream_groups.specs.GroupsCode.{groups_code};
    ghost use Rattle.session_desk.specs.Codes.{members_code, fields_code, scores_code};
    ghost use Rattle.session_desk.specs.Kept.{DeskSeen, all_kept};
    ghost use Rattle.std.specs.List.{All};
    ghost use Rattle.session_desk.specs.Watching.{IsWithin, NoneWatch};

    ghost Value = { DeskSeen E };

    ghost coded = { Prim.hlevel (codes, E.code, groups_code, members_code, fields_code, scores_code) };

    ghost view = { λ d. record { engine = d.engine; sessions = all_kept E.told d.sessions.items; current = d.current; is_spent = d.is_spent } };

    ghost invariant = { λ d. (All IsWithin d.sessions.items) × NoneWatch d.sessions.items d.may_watch };
}

// Keeps the sessions of all numbers up to this one.
fn make_room<T: Drop>(
    alloc: Global,
    sessions: &mut Vec<Session<T>>,
    number: usize,
) -> Result<(), Memory>
    requires within { All IsWithin sessions.old.items }
    ensures there { OnOk result (number < vec_len sessions.new) }
    ensures kept { (told : T → Option Entry) (other : ℕ) → session_at (all_kept told sessions.new.items) other ≡ session_at (all_kept told sessions.old.items) other }
    ensures within { All IsWithin sessions.new.items }
    ensures silent { All IsSilent sessions.old.items → All IsSilent sessions.new.items }
{
    'rooms: while sessions.len() <= number {
        sessions.push(Session::new(alloc))?;
    }
    Ok(())
}

// Keeps that a session watches a key.
fn note_watches<T: Drop>(session: &Session<T>, may_watch: &mut bool)
    ensures { may_watch.new ≡ false → (may_watch.old ≡ false) × IsSilent session.now }
{
    if !session.is_silent() {
        *may_watch = true;
    }
}

// Answers a request of the session of this number.
fn answer_of<E: DeskEngine>(
    alloc: Global,
    engine: &mut E,
    sessions: &mut Vec<Session<E::Told>>,
    may_watch: &mut bool,
    number: usize,
    request: &Request<'_>,
    moment: u64,
) -> Result<Answered, Memory>
    requires within { All IsWithin sessions.old.items }
    requires alive { E.spent engine.old ≡ false }
    ensures answers { IfOk result (λ answered. AnswersOf E.model E.executes moment engine.old engine.new (session_at (all_kept E.told sessions.old.items)) (session_at (all_kept E.told sessions.new.items)) number request.now answered.done.reply) }
    ensures quit { IfOk result (λ answered. answered.done.quit ≡ asks_to_quit request.now) }
    ensures within { IfOk result (λ answered. All IsWithin sessions.new.items) }
    ensures alive { IfOk result (λ answered. E.spent engine.new ≡ false) }
    ensures ran { IfOk result (λ answered. answered.ran ≡ Ran.Nothing → engine.new ≡ engine.old) }
    ensures request { IfOk result (λ answered. answered.ran ≡ Ran.Request → E.executes moment (E.model.choose engine.old answered.db) request.now answered.done.reply engine.new) }
    ensures queue { IfOk result (λ answered. answered.ran ≡ Ran.Queue → RanQueue E.model E.executes moment engine.old answered.queue engine.new) }
    ensures watches { IfOk result (λ answered. NoneWatch sessions.old.items may_watch.old → NoneWatch sessions.new.items may_watch.new) }
{
    prove!(request.len() > 0);
    make_room(alloc, sessions, number)?;
    let answered = answer_session(alloc, engine, &mut sessions[number], request, moment)?;
    note_watches(&sessions[number], may_watch);
    Ok(answered)
}

// Whether some session watches a key.
fn any_watches<T: Drop>(sessions: &[Session<T>]) -> bool
    ensures { NoneWatch sessions.now result }
{
    for session in sessions {
        if !session.is_silent() {
            return true;
        }
    }
    false
}

// Looks at the watched keys of all sessions where something may have been written.
fn review_written<E: DeskEngine>(
    alloc: Global,
    engine: &E,
    sessions: &mut Vec<Session<E::Told>>,
    may_watch: &mut bool,
    written: &Written<'_>,
    moment: u64,
) -> Result<(), Memory>
    requires alive { E.spent engine.now ≡ false }
    requires within { All IsWithin sessions.old.items }
    ensures passed { OnOk result (AreReviewed (λ one new. Passed (IsAmong written.now one.db one.key) (seen E.model (max (E.model.last engine.now) moment) engine.now) one new) (all_kept E.told sessions.old.items) (all_kept E.told sessions.new.items)) }
    ensures within { OnOk result (All IsWithin sessions.new.items) }
    ensures watches { OnOk result (NoneWatch sessions.new.items may_watch.new) }
{
    let late = engine.moment().max(moment);
    review_all(alloc, engine, sessions, written, late)?;
    *may_watch = any_watches(sessions);
    Ok(())
}

// The same behind a request that was run where this database was selected.
fn review_request<E: DeskEngine>(
    alloc: Global,
    engine: &E,
    sessions: &mut Vec<Session<E::Told>>,
    may_watch: &mut bool,
    request: &Request<'_>,
    db: usize,
    moment: u64,
) -> Result<(), Memory>
    requires alive { E.spent engine.now ≡ false }
    requires within { All IsWithin sessions.old.items }
    ensures passed { OnOk result (AreReviewed (λ one new. Passed (IsMeant db request.now one.db one.key) (seen E.model (max (E.model.last engine.now) moment) engine.now) one new) (all_kept E.told sessions.old.items) (all_kept E.told sessions.new.items)) }
    ensures within { OnOk result (All IsWithin sessions.new.items) }
    ensures watches { OnOk result (NoneWatch sessions.new.items may_watch.new) }
{
    let written = written_by(alloc, request, db)?;
    review_written(alloc, engine, sessions, may_watch, &written, moment)
}

// The same behind queued requests, which were run in whatever databases.
fn review_queue<E: DeskEngine>(
    alloc: Global,
    engine: &E,
    sessions: &mut Vec<Session<E::Told>>,
    may_watch: &mut bool,
    queue: &Option<Queue>,
    moment: u64,
) -> Result<(), Memory>
    requires alive { E.spent engine.now ≡ false }
    requires within { All IsWithin sessions.old.items }
    ensures passed { OnOk result (AreReviewed (λ one new. Passed (SomeWrite queue.now one.db one.key) (seen E.model (max (E.model.last engine.now) moment) engine.now) one new) (all_kept E.told sessions.old.items) (all_kept E.told sessions.new.items)) }
    ensures within { OnOk result (All IsWithin sessions.new.items) }
    ensures watches { OnOk result (NoneWatch sessions.new.items may_watch.new) }
{
    let written = written_behind(alloc, queue)?;
    review_written(alloc, engine, sessions, may_watch, &written, moment)
}

// The same behind what was run; where no session watches a key, nothing is looked at.
fn review_behind<E: DeskEngine>(
    alloc: Global,
    engine: &E,
    sessions: &mut Vec<Session<E::Told>>,
    may_watch: &mut bool,
    answered: &Answered,
    request: &Request<'_>,
    moment: u64,
) -> Result<(), Memory>
    requires alive { E.spent engine.now ≡ false }
    requires within { All IsWithin sessions.old.items }
    requires watches { NoneWatch sessions.old.items may_watch.old }
    ensures passed { OnOk result (AreReviewed (λ one new. Passed (MayHaveWritten answered.now.ran answered.now.db request.now answered.now.queue one.db one.key) (seen E.model (max (E.model.last engine.now) moment) engine.now) one new) (all_kept E.told sessions.old.items) (all_kept E.told sessions.new.items)) }
    ensures within { OnOk result (All IsWithin sessions.new.items) }
    ensures watches { OnOk result (NoneWatch sessions.new.items may_watch.new) }
{
    if !*may_watch {
        return Ok(());
    }
    match answered.ran {
        Ran::Nothing => Ok(()),
        Ran::Request => review_request(
            alloc,
            engine,
            sessions,
            may_watch,
            request,
            answered.db,
            moment,
        ),
        Ran::Queue => review_queue(alloc, engine, sessions, may_watch, &answered.queue, moment),
    }
}

// The same, and watched keys that may have been written are looked at.
fn serve<E: DeskEngine>(
    alloc: Global,
    engine: &mut E,
    sessions: &mut Vec<Session<E::Told>>,
    may_watch: &mut bool,
    number: usize,
    request: &Request<'_>,
    moment: u64,
) -> Result<Done, Memory>
    requires within { All IsWithin sessions.old.items }
    requires watches { NoneWatch sessions.old.items may_watch.old }
    requires alive { E.spent engine.old ≡ false }
    ensures serves { IfOk result (λ done. Serves E.model E.executes moment engine.old engine.new (session_at (all_kept E.told sessions.old.items)) (session_at (all_kept E.told sessions.new.items)) number request.now done.reply) }
    ensures quit { IfOk result (λ done. done.quit ≡ asks_to_quit request.now) }
    ensures within { IfOk result (λ done. All IsWithin sessions.new.items) }
    ensures watches { IfOk result (λ done. NoneWatch sessions.new.items may_watch.new) }
    ensures alive { IfOk result (λ done. E.spent engine.new ≡ false) }
{
    let answered = answer_of(alloc, engine, sessions, may_watch, number, request, moment)?;
    review_behind(
        alloc, engine, sessions, may_watch, &answered, request, moment,
    )?;
    Ok(answered.done)
}

impl<E: DeskEngine> Desk<E> {
    /// A desk at which no session has said a word.
    pub fn new(alloc: Global, engine: E) -> Desk<E>
        ensures engine { result.engine ≡ engine }
        ensures sessions { (number : ℕ) → session_at result.sessions number ≡ new_kept }
        ensures current { result.current ≡ 0 }
        ensures alive { result.is_spent ≡ false }
    {
        Desk {
            alloc,
            engine,
            sessions: Vec::new(alloc),
            current: 0,
            may_watch: false,
            is_spent: false,
        }
    }

    /// Its engine.
    pub fn engine(&self) -> &E
        ensures { result.now ≡ self.now.engine }
    {
        &self.engine
    }
}

impl<E: DeskEngine> Server for Desk<E> {
    ghost executes = { λ moment old words reply new. DeskAnswers E.model E.executes moment old words reply new };

    ghost works = { λ moment plan old new. DeskRests E.works moment plan old new };

    ghost quits = { asks_to_quit };

    ghost spent = { λ desk. desk.is_spent || E.spent desk.engine };

    fn execute(&mut self, request: &Request<'_>, moment: u64) -> Result<Done, Memory> {
        if self.is_spent {
            return Err(AllocError);
        }
        if self.engine.is_spent() {
            return Err(AllocError);
        }
        let number = self.current as usize;
        match serve(
            self.alloc,
            &mut self.engine,
            &mut self.sessions,
            &mut self.may_watch,
            number,
            request,
            moment,
        ) {
            Ok(done) => Ok(done),
            Err(error) => {
                self.is_spent = true;
                self.sessions.clear();
                Err(error)
            }
        }
    }

    fn background(&mut self, plan: Plan, moment: u64) {
        self.engine.background(plan, moment);
    }
}

impl<E: DeskEngine> Sessions for Desk<E> {
    ghost turns = { λ session old new. new ≡ turned old session };

    fn turn_to(&mut self, session: u16) {
        self.current = session;
    }
}
