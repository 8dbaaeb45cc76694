//! What a session is answered (Redis documentation, "Transactions").

ghost use Rattle.std.specs.Prelude.{◌≡◌, ◌≢◌, ◌++◌, ◌∷◌, [], map, drop, None, Some, false, max, IfOk};
ghost use Rattle.plain_world.specs.Parts.{IsReply};
ghost use Rattle.plain_model.specs.Meant.{asks_to_quit};
ghost use Rattle.plain_sessions.specs.Transactions.{asked_of, ok};
ghost use Rattle.session_desk.specs.Kept.{kept_of, looks, queueing, watching};
ghost use Rattle.resp_frames.specs.Frames.{request_bytes};
ghost use Rattle.session_desk.specs.Engines.{seen};
ghost use Rattle.session_desk.specs.Watching.{watch, IsWithin, IsQueued};
ghost use Rattle.session_desk.specs.Answered.{Answers, RunsOne, RunsQueue, Executes, Queues, RanQueue};

use crate::asking::{Asks, Queueing, asks_of, queueing_of};
use crate::engine::DeskEngine;
use crate::session::Session;
use crate::watching::{any_moved, watch_keys};
use plain_world::{Line, Memory, Part, Parts, Refusal, Reply};
use request_queue::Queue;
use resp_frames::Request;
use serving::Done;
use std::alloc::{AllocError, Global};

/// What was run.
#[derive(Clone, Copy)]
pub enum Ran {
    Nothing,
    /// The request, at once.
    Request,
    /// Queued requests.
    Queue,
}

/// What a request led to, and what was run.
#[derive(Drop)]
pub struct Answered {
    pub done: Done,
    pub ran: Ran,
    /// In which database the request was run.
    pub db: usize,
    /// The queued requests that were.
    pub queue: Option<Queue>,
}

// A reply of one part, for which nothing was run.
fn told(alloc: Global, part: Part) -> Result<Answered, Memory>
    requires { IsReply (part ∷ []) }
    ensures reply { IfOk result (λ answered. answered.done.reply ≡ part ∷ []) }
    ensures quit { IfOk result (λ answered. answered.done.quit ≡ false) }
    ensures ran { IfOk result (λ answered. answered.ran ≡ Ran.Nothing) }
{
    let mut parts = Parts::new(alloc);
    parts.push(part)?;
    Ok(Answered {
        done: Done {
            reply: parts.into_reply(),
            quit: false,
        },
        ran: Ran::Nothing,
        db: 0,
        queue: None,
    })
}

// Runs a command at once, in the session's database.
fn run_one<E: DeskEngine>(
    engine: &mut E,
    session: &mut Session<E::Told>,
    request: &Request<'_>,
    moment: u64,
) -> Result<Answered, Memory>
    requires within { IsWithin session.old }
    ensures runs { IfOk result (λ answered. RunsOne E.model E.executes moment engine.old (kept_of E.told session.old) request.now
        (record { engine = engine.new; reply = answered.done.reply; kept = kept_of E.told session.new })) }
    ensures quit { IfOk result (λ answered. answered.done.quit ≡ asks_to_quit request.now) }
    ensures within { IfOk result (λ answered. IsWithin session.new) }
    ensures alive { IfOk result (λ answered. E.spent engine.new ≡ false) }
    ensures ran { IfOk result (λ answered. answered.ran ≡ Ran.Nothing → engine.new ≡ engine.old) }
    ensures request { IfOk result (λ answered. answered.ran ≡ Ran.Request → E.executes moment (E.model.choose engine.old answered.db) request.now answered.done.reply engine.new) }
    ensures queue { IfOk result (λ answered. answered.ran ≢ Ran.Queue) }
{
    let db = session.db;
    engine.select(db);
    let done = engine.execute(request, moment)?;
    session.db = engine.db();
    Ok(Answered {
        done,
        ran: Ran::Request,
        db,
        queue: None,
    })
}

// Runs the queued commands at once, in the session's database; without any nothing is done.
fn run_queue<E: DeskEngine>(
    alloc: Global,
    engine: &mut E,
    session: &mut Session<E::Told>,
    queue: Queue,
    moment: u64,
) -> Result<Answered, Memory>
    requires within { IsWithin session.old }
    requires alive { E.spent engine.old ≡ false }
    requires queued { IsQueued (Some queue) }
    ensures runs { IfOk result (λ answered. RunsQueue E.model E.executes moment engine.old (kept_of E.told session.old) queue
        (record { engine = engine.new; reply = answered.done.reply; kept = kept_of E.told session.new })) }
    ensures quit { IfOk result (λ answered. answered.done.quit ≡ false) }
    ensures within { IfOk result (λ answered. IsWithin session.new) }
    ensures alive { IfOk result (λ answered. E.spent engine.new ≡ false) }
    ensures ran { IfOk result (λ answered. answered.ran ≡ Ran.Nothing → engine.new ≡ engine.old) }
    ensures request { IfOk result (λ answered. answered.ran ≢ Ran.Request) }
    ensures queue { IfOk result (λ answered. answered.ran ≡ Ran.Queue → RanQueue E.model E.executes moment engine.old answered.queue engine.new) }
{
    session.close();
    if queue.len() == 0 {
        return told(alloc, Part::Array(0));
    }
    engine.select(session.db);
    let reply = queue.run(alloc, engine, moment)?;
    if engine.is_spent() {
        return Err(AllocError);
    }
    session.db = engine.db();
    Ok(Answered {
        done: Done { reply, quit: false },
        ran: Ran::Queue,
        db: 0,
        queue: Some(queue),
    })
}

// EXEC inside MULTI, behind these commands.
fn exec<E: DeskEngine>(
    alloc: Global,
    engine: &mut E,
    session: &mut Session<E::Told>,
    queue: Queue,
    moment: u64,
) -> Result<Answered, Memory>
    requires within { IsWithin session.old }
    requires alive { E.spent engine.old ≡ false }
    requires queued { IsQueued (Some queue) }
    ensures executes { IfOk result (λ answered. Executes E.model E.executes moment engine.old (kept_of E.told session.old) queue
        (record { engine = engine.new; reply = answered.done.reply; kept = kept_of E.told session.new })) }
    ensures quit { IfOk result (λ answered. answered.done.quit ≡ false) }
    ensures within { IfOk result (λ answered. IsWithin session.new) }
    ensures alive { IfOk result (λ answered. E.spent engine.new ≡ false) }
    ensures ran { IfOk result (λ answered. answered.ran ≡ Ran.Nothing → engine.new ≡ engine.old) }
    ensures request { IfOk result (λ answered. answered.ran ≢ Ran.Request) }
    ensures queue { IfOk result (λ answered. answered.ran ≡ Ran.Queue → RanQueue E.model E.executes moment engine.old answered.queue engine.new) }
{
    if session.is_spoilt {
        session.close();
        return told(alloc, Part::Refused(Refusal::ExecAbort));
    }
    let late = engine.moment().max(moment);
    if any_moved(alloc, engine, &session.watched, late)? {
        session.close();
        return told(alloc, Part::NullArray);
    }
    run_queue(alloc, engine, session, queue, moment)
}

// WATCH outside MULTI, with the keys behind the request's first word.
fn watch<E: DeskEngine>(
    alloc: Global,
    engine: &E,
    session: &mut Session<E::Told>,
    request: &Request<'_>,
    moment: u64,
) -> Result<Answered, Memory>
    requires within { IsWithin session.old }
    requires alive { E.spent engine.now ≡ false }
    ensures kept { IfOk result (λ answered. kept_of E.told session.new ≡ watching (kept_of E.told session.old)
        (looks E.told session.old.watched.items ++ map (watch (seen E.model (max (E.model.last engine.now) moment) engine.now) session.old.db) (drop 1 request.now))) }
    ensures reply { IfOk result (λ answered. answered.done.reply ≡ ok) }
    ensures quit { IfOk result (λ answered. answered.done.quit ≡ false) }
    ensures ran { IfOk result (λ answered. answered.ran ≡ Ran.Nothing) }
    ensures within { IfOk result (λ answered. IsWithin session.new) }
{
    let late = engine.moment().max(moment);
    watch_keys(alloc, engine, session, request, late)?;
    let answered = told(alloc, Part::Simple(Line::ok()))?;
    Ok(answered)
}

// A request outside MULTI.
fn answer_outside<E: DeskEngine>(
    alloc: Global,
    engine: &mut E,
    session: &mut Session<E::Told>,
    request: &Request<'_>,
    moment: u64,
) -> Result<Answered, Memory>
    requires within { IsWithin session.old }
    requires alive { E.spent engine.old ≡ false }
    requires outside { session.old.queue ≡ None }
    ensures answers { IfOk result (λ answered. Answers E.model E.executes moment engine.old (kept_of E.told session.old) None request.now (asked_of request.now)
        (record { engine = engine.new; reply = answered.done.reply; kept = kept_of E.told session.new })) }
    ensures quit { IfOk result (λ answered. answered.done.quit ≡ asks_to_quit request.now) }
    ensures within { IfOk result (λ answered. IsWithin session.new) }
    ensures alive { IfOk result (λ answered. E.spent engine.new ≡ false) }
    ensures ran { IfOk result (λ answered. answered.ran ≡ Ran.Nothing → engine.new ≡ engine.old) }
    ensures request { IfOk result (λ answered. answered.ran ≡ Ran.Request → E.executes moment (E.model.choose engine.old answered.db) request.now answered.done.reply engine.new) }
    ensures queue { IfOk result (λ answered. answered.ran ≡ Ran.Queue → RanQueue E.model E.executes moment engine.old answered.queue engine.new) }
{
    match asks_of(request) {
        Asks::Multi => {
            session.queue = Some(Queue::new(alloc));
            session.is_spoilt = false;
            told(alloc, Part::Simple(Line::ok()))
        }
        Asks::Exec => told(alloc, Part::Refused(Refusal::ExecWithoutMulti)),
        Asks::Discard => told(alloc, Part::Refused(Refusal::DiscardWithoutMulti)),
        Asks::Watch => watch(alloc, engine, session, request, moment),
        Asks::Misnumbered => told(alloc, Part::Refused(Refusal::WrongNumberOfArguments)),
        Asks::Common => run_one(engine, session, request, moment),
    }
}

// These requests, with one more behind them.
fn queue_behind(alloc: Global, queue: Queue, request: &Request<'_>) -> Result<Queue, Memory>
    requires { IsQueued (Some queue) }
    ensures is { IfOk result (λ longer. longer ≡ queue ++ request_bytes request.now ∷ []) }
    ensures queued { IfOk result (λ longer. IsQueued (Some longer)) }
{
    prove!(request.len() > 0);
    let mut queue = queue;
    queue.push(alloc, request)?;
    Ok(queue)
}

// A command that is none of the session's own inside MULTI, behind these.
fn enqueue<E: DeskEngine>(
    alloc: Global,
    engine: &mut E,
    session: &mut Session<E::Told>,
    queue: Queue,
    request: &Request<'_>,
    moment: u64,
) -> Result<Answered, Memory>
    requires within { IsWithin session.old }
    requires alive { E.spent engine.old ≡ false }
    requires queued { IsQueued (Some queue) }
    ensures queues { IfOk result (λ answered. Queues E.model E.executes moment engine.old (queueing (kept_of E.told session.old) queue) queue request.now (asks_to_quit request.now)
        (record { engine = engine.new; reply = answered.done.reply; kept = kept_of E.told session.new })) }
    ensures quit { IfOk result (λ answered. answered.done.quit ≡ asks_to_quit request.now) }
    ensures within { IfOk result (λ answered. IsWithin session.new) }
    ensures alive { IfOk result (λ answered. E.spent engine.new ≡ false) }
    ensures ran { IfOk result (λ answered. answered.ran ≡ Ran.Nothing → engine.new ≡ engine.old) }
    ensures request { IfOk result (λ answered. answered.ran ≡ Ran.Request → E.executes moment (E.model.choose engine.old answered.db) request.now answered.done.reply engine.new) }
    ensures queue { IfOk result (λ answered. answered.ran ≡ Ran.Queue → RanQueue E.model E.executes moment engine.old answered.queue engine.new) }
{
    match queueing_of(alloc, request)? {
        Queueing::Quits => {
            session.queue = Some(queue);
            run_one(engine, session, request, moment)
        }
        Queueing::Waits => {
            let queue = queue_behind(alloc, queue, request)?;
            session.queue = Some(queue);
            told(alloc, Part::Simple(Line::queued()))
        }
        Queueing::Wrong(refusal) => {
            session.queue = Some(queue);
            session.is_spoilt = true;
            told(alloc, Part::Refused(refusal))
        }
    }
}

// A request inside MULTI, behind these commands.
fn answer_inside<E: DeskEngine>(
    alloc: Global,
    engine: &mut E,
    session: &mut Session<E::Told>,
    queue: Queue,
    request: &Request<'_>,
    moment: u64,
) -> Result<Answered, Memory>
    requires within { IsWithin session.old }
    requires alive { E.spent engine.old ≡ false }
    requires queued { IsQueued (Some queue) }
    ensures answers { IfOk result (λ answered. Answers E.model E.executes moment engine.old (queueing (kept_of E.told session.old) queue) (Some queue) request.now (asked_of request.now)
        (record { engine = engine.new; reply = answered.done.reply; kept = kept_of E.told session.new })) }
    ensures quit { IfOk result (λ answered. answered.done.quit ≡ asks_to_quit request.now) }
    ensures within { IfOk result (λ answered. IsWithin session.new) }
    ensures alive { IfOk result (λ answered. E.spent engine.new ≡ false) }
    ensures ran { IfOk result (λ answered. answered.ran ≡ Ran.Nothing → engine.new ≡ engine.old) }
    ensures request { IfOk result (λ answered. answered.ran ≡ Ran.Request → E.executes moment (E.model.choose engine.old answered.db) request.now answered.done.reply engine.new) }
    ensures queue { IfOk result (λ answered. answered.ran ≡ Ran.Queue → RanQueue E.model E.executes moment engine.old answered.queue engine.new) }
{
    match asks_of(request) {
        Asks::Multi => {
            session.queue = Some(queue);
            told(alloc, Part::Refused(Refusal::NestedMulti))
        }
        Asks::Exec => exec(alloc, engine, session, queue, moment),
        Asks::Discard => {
            session.close();
            told(alloc, Part::Simple(Line::ok()))
        }
        Asks::Watch => {
            session.queue = Some(queue);
            told(alloc, Part::Refused(Refusal::WatchInsideMulti))
        }
        Asks::Misnumbered => {
            session.queue = Some(queue);
            session.is_spoilt = true;
            told(alloc, Part::Refused(Refusal::WrongNumberOfArguments))
        }
        Asks::Common => enqueue(alloc, engine, session, queue, request, moment),
    }
}

/// Answers a request of a session, by what is kept of it. `Memory` where memory was refused; then some of the queued commands may
/// have been run.
pub fn answer_session<E: DeskEngine>(
    alloc: Global,
    engine: &mut E,
    session: &mut Session<E::Told>,
    request: &Request<'_>,
    moment: u64,
) -> Result<Answered, Memory>
    requires within { IsWithin session.old }
    requires alive { E.spent engine.old ≡ false }
    ensures answers { IfOk result (λ answered. Answers E.model E.executes moment engine.old (kept_of E.told session.old) session.old.queue request.now (asked_of request.now)
        (record { engine = engine.new; reply = answered.done.reply; kept = kept_of E.told session.new })) }
    ensures quit { IfOk result (λ answered. answered.done.quit ≡ asks_to_quit request.now) }
    ensures within { IfOk result (λ answered. IsWithin session.new) }
    ensures alive { IfOk result (λ answered. E.spent engine.new ≡ false) }
    ensures ran { IfOk result (λ answered. answered.ran ≡ Ran.Nothing → engine.new ≡ engine.old) }
    ensures request { IfOk result (λ answered. answered.ran ≡ Ran.Request → E.executes moment (E.model.choose engine.old answered.db) request.now answered.done.reply engine.new) }
    ensures queue { IfOk result (λ answered. answered.ran ≡ Ran.Queue → RanQueue E.model E.executes moment engine.old answered.queue engine.new) }
{
    match session.queue.take() {
        None => answer_outside(alloc, engine, session, request, moment),
        Some(queue) => answer_inside(alloc, engine, session, queue, request, moment),
    }
}
