//! Watched keys (Redis documentation, "Transactions", "Optimistic locking using check-and-set").

ghost use Rattle.std.specs.Prelude.{◌≡◌, ◌↔◌, ◌<◌, ◌≤◌, ◌++◌, ◌∷◌, [], false, map, drop, IfOk, OnOk, IsTrue};
ghost use Rattle.std.specs.List.{All, Contains};
ghost use Rattle.written_keys.specs.Written.{at, IsEmptied};
ghost use Rattle.session_desk.specs.Engines.{seen};
ghost use Rattle.session_desk.specs.Kept.{new_kept, kept_of, all_kept, looks, look_of, watching};
ghost use Rattle.session_desk.specs.Watching.{watch, IsChange, Moves, IsLooked, Each, Reviews, AreWithin, IsWithin, watched_keys};
ghost use Rattle.session_desk.specs.Passing.{IsOf, Passed, EachPassed};
ghost use Rattle.session_desk.specs.Writing.{texts_of, IsAmong};

use crate::engine::DeskEngine;
use crate::session::{Session, Watch};
use crate::writing::{Written, is_emptied};
use plain_model::Word;
use plain_world::Memory;
use resp_frames::Request;
use std::alloc::Global;
use written_keys::Emptied;

// Watches one key too, in the session's database.
fn watch_key<E: DeskEngine>(
    alloc: Global,
    engine: &E,
    session: &mut Session<E::Told>,
    key: &[u8],
    moment: u64,
) -> Result<(), Memory>
    requires alive { E.spent engine.now ≡ false }
    requires late { E.model.last engine.now ≤ moment }
    requires within { IsWithin session.old }
    ensures kept { OnOk result (kept_of E.told session.new ≡ watching (kept_of E.told session.old) (looks E.told session.old.watched.items ++ watch (seen E.model moment engine.now) session.old.db key.now ∷ [])) }
    ensures within { OnOk result (IsWithin session.new) }
{
    let first = engine.look(alloc, session.db, key, moment)?;
    session.marks.add(key, session.watched.len())?;
    let key = Vec::from_slice(alloc, key)?;
    session.watched.push(Watch {
        db: session.db,
        key,
        first,
        has_changed: false,
    })?;
    Ok(())
}

/// Watches the keys that stand behind a request's first word, in the session's database.
pub fn watch_keys<E: DeskEngine>(
    alloc: Global,
    engine: &E,
    session: &mut Session<E::Told>,
    request: &Request<'_>,
    moment: u64,
) -> Result<(), Memory>
    requires alive { E.spent engine.now ≡ false }
    requires late { E.model.last engine.now ≤ moment }
    requires within { IsWithin session.old }
    ensures kept { OnOk result (kept_of E.told session.new ≡ watching (kept_of E.told session.old) (looks E.told session.old.watched.items ++ map (watch (seen E.model moment engine.now) session.old.db) (drop 1 request.now))) }
    ensures within { OnOk result (IsWithin session.new) }
{
    for index in 1..request.len() {
        watch_key(alloc, engine, session, request.word(index), moment)?;
    }
    Ok(())
}

// Whether at a watched key something else was found, or stands at this moment.
fn has_moved<E: DeskEngine>(
    alloc: Global,
    engine: &E,
    watch: &Watch<E::Told>,
    moment: u64,
) -> Result<bool, Memory>
    requires alive { E.spent engine.now ≡ false }
    requires db { watch.now.db < 16 }
    requires late { E.model.last engine.now ≤ moment }
    ensures { IfOk result (λ moved. IsChange (seen E.model moment engine.now) (look_of E.told watch.now) moved) }
{
    if watch.has_changed {
        return Ok(true);
    }
    let same = engine.is_still(alloc, watch.db, &watch.key, &watch.first, moment)?;
    Ok(!same)
}

/// Whether that is so at one of the watched keys.
pub fn any_moved<E: DeskEngine>(
    alloc: Global,
    engine: &E,
    watched: &[Watch<E::Told>],
    moment: u64,
) -> Result<bool, Memory>
    requires alive { E.spent engine.now ≡ false }
    requires within { AreWithin watched.now }
    requires late { E.model.last engine.now ≤ moment }
    ensures { IfOk result (λ moved. Moves (seen E.model moment engine.now) (looks E.told watched.now) moved) }
{
    for watch in watched {
        if has_moved(alloc, engine, watch, moment)? {
            return Ok(true);
        }
    }
    Ok(false)
}

// Looks at one watched key, and keeps whether it has changed.
fn review_one<E: DeskEngine>(
    alloc: Global,
    engine: &E,
    watch: &mut Watch<E::Told>,
    moment: u64,
) -> Result<(), Memory>
    requires alive { E.spent engine.now ≡ false }
    requires db { watch.old.db < 16 }
    requires late { E.model.last engine.now ≤ moment }
    ensures looked { OnOk result (IsLooked (seen E.model moment engine.now) (look_of E.told watch.old) (look_of E.told watch.new)) }
    ensures db { watch.new.db ≡ watch.old.db }
    ensures key { watch.new.key ≡ watch.old.key }
{
    let moved = has_moved(alloc, engine, watch, moment)?;
    watch.has_changed = moved;
    Ok(())
}

// Whether a database is this one, where one is told.
fn is_of(number: Option<usize>, db: usize) -> bool
    ensures { IsTrue result ↔ IsOf number db }
{
    match number {
        None => true,
        Some(number) => db == number,
    }
}

// Looks at the one in a place, where there is one, in this database or in any.
fn review_place<E: DeskEngine>(
    alloc: Global,
    engine: &E,
    watched: &mut Vec<Watch<E::Told>>,
    place: usize,
    db: Option<usize>,
    moment: u64,
) -> Result<(), Memory>
    requires alive { E.spent engine.now ≡ false }
    requires within { AreWithin watched.old.items }
    requires late { E.model.last engine.now ≤ moment }
    ensures passed { OnOk result (EachPassed (λ k one. (place ≡ k) × IsOf db one.db) (seen E.model moment engine.now) (looks E.told watched.old.items) (looks E.told watched.new.items)) }
    ensures within { OnOk result (AreWithin watched.new.items) }
    ensures keys { OnOk result (watched_keys watched.new.items ≡ watched_keys watched.old.items) }
{
    if place >= watched.len() {
        return Ok(());
    }
    if !is_of(db, watched[place].db) {
        return Ok(());
    }
    review_one(alloc, engine, &mut watched[place], moment)
}

// Looks at those in these places that are in this database, or at all.
fn review_marked<E: DeskEngine>(
    alloc: Global,
    engine: &E,
    watched: &mut Vec<Watch<E::Told>>,
    places: &[usize],
    db: Option<usize>,
    moment: u64,
) -> Result<(), Memory>
    requires alive { E.spent engine.now ≡ false }
    requires within { AreWithin watched.old.items }
    requires late { E.model.last engine.now ≤ moment }
    ensures passed { OnOk result (EachPassed (λ k one. Contains places.now k × IsOf db one.db) (seen E.model moment engine.now) (looks E.told watched.old.items) (looks E.told watched.new.items)) }
    ensures within { OnOk result (AreWithin watched.new.items) }
    ensures keys { OnOk result (watched_keys watched.new.items ≡ watched_keys watched.old.items) }
{
    for place in places {
        review_place(alloc, engine, watched, *place, db, moment)?;
    }
    Ok(())
}

// Looks at those of one key of a database, or of each database.
fn review_key<E: DeskEngine>(
    alloc: Global,
    engine: &E,
    session: &mut Session<E::Told>,
    db: Option<usize>,
    key: &[u8],
    moment: u64,
) -> Result<(), Memory>
    requires alive { E.spent engine.now ≡ false }
    requires within { IsWithin session.old }
    requires late { E.model.last engine.now ≤ moment }
    ensures passed { OnOk result (EachPassed (λ k one. (key.now ≡ one.key) × IsOf db one.db) (seen E.model moment engine.now) (looks E.told session.old.watched.items) (looks E.told session.new.watched.items)) }
    ensures kept { OnOk result (kept_of E.told session.new ≡ watching (kept_of E.told session.old) (looks E.told session.new.watched.items)) }
    ensures within { OnOk result (IsWithin session.new) }
{
    let places = session.marks.at(key);
    review_marked(alloc, engine, &mut session.watched, places, db, moment)
}

// Looks at those of these keys.
fn review_keys<E: DeskEngine>(
    alloc: Global,
    engine: &E,
    session: &mut Session<E::Told>,
    places: &[(usize, Word<'_>)],
    moment: u64,
) -> Result<(), Memory>
    requires alive { E.spent engine.now ≡ false }
    requires within { IsWithin session.old }
    requires late { E.model.last engine.now ≤ moment }
    ensures passed { OnOk result (EachPassed (λ k one. Contains places.now (at one.db one.key)) (seen E.model moment engine.now) (looks E.told session.old.watched.items) (looks E.told session.new.watched.items)) }
    ensures kept { OnOk result (kept_of E.told session.new ≡ watching (kept_of E.told session.old) (looks E.told session.new.watched.items)) }
    ensures within { OnOk result (IsWithin session.new) }
{
    for place in places {
        review_key(
            alloc,
            engine,
            session,
            Some(place.0),
            place.1.as_slice(),
            moment,
        )?;
    }
    Ok(())
}

// Looks at those of these names, in whatever database.
fn review_names<E: DeskEngine>(
    alloc: Global,
    engine: &E,
    session: &mut Session<E::Told>,
    names: &[Vec<u8>],
    moment: u64,
) -> Result<(), Memory>
    requires alive { E.spent engine.now ≡ false }
    requires within { IsWithin session.old }
    requires late { E.model.last engine.now ≤ moment }
    ensures passed { OnOk result (EachPassed (λ k one. Contains (texts_of names.now) one.key) (seen E.model moment engine.now) (looks E.told session.old.watched.items) (looks E.told session.new.watched.items)) }
    ensures kept { OnOk result (kept_of E.told session.new ≡ watching (kept_of E.told session.old) (looks E.told session.new.watched.items)) }
    ensures within { OnOk result (IsWithin session.new) }
{
    for name in names {
        review_key(alloc, engine, session, None, name, moment)?;
    }
    Ok(())
}

// Looks at the one in a place, where its database was emptied.
fn review_in<E: DeskEngine>(
    alloc: Global,
    engine: &E,
    watch: &mut Watch<E::Told>,
    emptied: Emptied,
    selected: usize,
    moment: u64,
) -> Result<(), Memory>
    requires alive { E.spent engine.now ≡ false }
    requires db { watch.old.db < 16 }
    requires late { E.model.last engine.now ≤ moment }
    ensures passed { OnOk result (Passed (IsEmptied emptied selected watch.old.db) (seen E.model moment engine.now) (look_of E.told watch.old) (look_of E.told watch.new)) }
    ensures db { watch.new.db ≡ watch.old.db }
    ensures key { watch.new.key ≡ watch.old.key }
{
    if !is_emptied(emptied, selected, watch.db) {
        return Ok(());
    }
    review_one(alloc, engine, watch, moment)
}

// Looks at those in databases that were emptied.
fn review_emptied<E: DeskEngine>(
    alloc: Global,
    engine: &E,
    watched: &mut Vec<Watch<E::Told>>,
    emptied: Emptied,
    selected: usize,
    moment: u64,
) -> Result<(), Memory>
    requires alive { E.spent engine.now ≡ false }
    requires within { AreWithin watched.old.items }
    requires late { E.model.last engine.now ≤ moment }
    ensures passed { OnOk result (EachPassed (λ k one. IsEmptied emptied selected one.db) (seen E.model moment engine.now) (looks E.told watched.old.items) (looks E.told watched.new.items)) }
    ensures within { OnOk result (AreWithin watched.new.items) }
    ensures keys { OnOk result (watched_keys watched.new.items ≡ watched_keys watched.old.items) }
{
    for index in 0..watched.len() {
        review_in(
            alloc,
            engine,
            &mut watched[index],
            emptied,
            selected,
            moment,
        )?;
    }
    Ok(())
}

// Looks at those in databases that were emptied, where there are some.
fn review_bases<E: DeskEngine>(
    alloc: Global,
    engine: &E,
    session: &mut Session<E::Told>,
    emptied: Emptied,
    selected: usize,
    moment: u64,
) -> Result<(), Memory>
    requires alive { E.spent engine.now ≡ false }
    requires within { IsWithin session.old }
    requires late { E.model.last engine.now ≤ moment }
    ensures passed { OnOk result (EachPassed (λ k one. IsEmptied emptied selected one.db) (seen E.model moment engine.now) (looks E.told session.old.watched.items) (looks E.told session.new.watched.items)) }
    ensures kept { OnOk result (kept_of E.told session.new ≡ watching (kept_of E.told session.old) (looks E.told session.new.watched.items)) }
    ensures within { OnOk result (IsWithin session.new) }
{
    if matches!(emptied, Emptied::Nothing) {
        return Ok(());
    }
    review_emptied(
        alloc,
        engine,
        &mut session.watched,
        emptied,
        selected,
        moment,
    )
}

// Looks at the watched keys of a session where something may have been written, and keeps which have changed.
fn review<E: DeskEngine>(
    alloc: Global,
    engine: &E,
    session: &mut Session<E::Told>,
    written: &Written<'_>,
    moment: u64,
) -> Result<(), Memory>
    requires alive { E.spent engine.now ≡ false }
    requires within { IsWithin session.old }
    requires late { E.model.last engine.now ≤ moment }
    ensures passed { OnOk result (Reviews (λ one new. Passed (IsAmong written.now one.db one.key) (seen E.model moment engine.now) one new) (kept_of E.told session.old) (kept_of E.told session.new)) }
    ensures within { OnOk result (IsWithin session.new) }
{
    if session.is_silent() {
        return Ok(());
    }
    review_keys(alloc, engine, session, &written.places, moment)?;
    review_bases(
        alloc,
        engine,
        session,
        written.emptied,
        written.selected,
        moment,
    )?;
    review_names(alloc, engine, session, &written.names, moment)
}

/// Looks at the watched keys of each session where something may have been written, and keeps which have changed.
pub fn review_all<E: DeskEngine>(
    alloc: Global,
    engine: &E,
    sessions: &mut Vec<Session<E::Told>>,
    written: &Written<'_>,
    moment: u64,
) -> Result<(), Memory>
    requires alive { E.spent engine.now ≡ false }
    requires within { All IsWithin sessions.old.items }
    requires late { E.model.last engine.now ≤ moment }
    ensures passed { OnOk result (Each new_kept (Reviews (λ one new. Passed (IsAmong written.now one.db one.key) (seen E.model moment engine.now) one new)) (all_kept E.told sessions.old.items) (all_kept E.told sessions.new.items)) }
    ensures within { OnOk result (All IsWithin sessions.new.items) }
{
    for index in 0..sessions.len() {
        review(alloc, engine, &mut sessions[index], written, moment)?;
    }
    Ok(())
}
