//! Hashes and sorted sets that are packed in a string of a file.

ghost use Rattle.std.specs.Prelude.{◌≡◌, ◌≤◌, ◌<◌, ◌+◌, ◌*◌, suc, ℕ, ℤ, List, [], Ok, Err, length, slice_index_or, MatchOption, IfOk, IfErr, OnOk, FitsSigned};
ghost use Rattle.std.specs.Int.{w64};
ghost use Rattle.blocks.specs.Blocks.{Changes, Served};
ghost use Rattle.listpack.specs.Element.{element_text as text_of_element};
ghost use Rattle.listpack.specs.Pack.{IsAt};
ghost use Rattle.listpack.specs.View.{bytes_of, list_of};
ghost use Rattle.object_codec.specs.Forms.{IsLeast};
ghost use Rattle.plain_world.specs.Worlds.{HashOf, SortedOf};
ghost use Rattle.hash_object.specs.Fields as hash;
ghost use Rattle.hash_object.specs.Maps.{FitsFields};
ghost use Rattle.zset_object.specs.Orders.{FitsScored};
ghost use Rattle.zset_object.specs.Scored as zset;
ghost use Rattle.rdb_grammar.specs.Format.{next_found, inside};
ghost use Rattle.rdb_grammar.specs.Payloads.{all_in, paired, scored as scored_of, score_in, with_pair, with_scored, kind_of as kind_of_score, pairs_on, scores_on};
ghost use Rattle.rdb_grammar.specs.Strings.{string};
ghost use Rattle.rdb_reader.specs.Building.{Makes, Reads};

use crate::building::{refused, twice};
use crate::fault::LoadFault;
use crate::payloads::no_payload;
use blocks::BlockStore;
use hash_object::Fields;
use int_text::{ScoreFault, read_score};
use itoa::Buffer;
use listpack::{Element, Pack};
use pack_pairs::text as element_text;
use rdb_grammar::{LoadKind, next_string, text};
use zset_object::Scored;

// A pair of a listpack's elements, and the offset of the next one.
#[derive(Clone, Copy)]
struct Pair<'a> {
    first: Element<'a>,
    second: Element<'a>,
    next: Option<usize>,
}

// The pair that begins at an offset.
fn pair_at<'a>(pack: &Pack<'a>, place: usize) -> Pair<'a>
    requires { (i : ℕ) × IsAt (bytes_of pack.now) i place × (suc i < length (list_of pack.now)) }
    ensures first { (i : ℕ) → IsAt (bytes_of pack.now) i place → text_of_element result.first ≡ slice_index_or (list_of pack.now) i [] }
    ensures second { (i : ℕ) → IsAt (bytes_of pack.now) i place → text_of_element result.second ≡ slice_index_or (list_of pack.now) (i + 1) [] }
    ensures next { (i : ℕ) → IsAt (bytes_of pack.now) i place → MatchOption result.next (i + 2 ≡ length (list_of pack.now)) (λ at. IsAt (bytes_of pack.now) (i + 2) at) }
{
    match pack.next(place) {
        Some(second) => Pair {
            first: pack.get(place),
            second: pack.get(second),
            next: pack.next(second),
        },
        None => unreachable!(),
    }
}

// Gives a field of the payload at an offset its value.
#[tactic(auto, using(keyspace::proofs::Serving::nothing, keyspace::proofs::Serving::both))]
fn set_pair<B: BlockStore>(
    fields: &mut Fields,
    store: &mut B,
    field: &[u8],
    value: &[u8],
    at: usize,
) -> Result<(), LoadFault>
    requires { hash.IsFields (B.blocks store.old) fields.old }
    ensures makes { Makes (with_pair (HashOf (hash.fields (B.blocks store.old) fields.old)) (field.now, value.now)) at (HashOf (hash.fields (B.blocks store.new) fields.new)) result }
    ensures sound { hash.IsFields (B.blocks store.new) fields.new }
    ensures settings { hash.KeepsSettings fields.old fields.new }
    ensures form { OnOk result
        (IsLeast (FitsFields fields.old.limits (hash.fields (B.blocks store.old) fields.old)) (hash.form_of fields.old)
        → IsLeast (FitsFields fields.old.limits (hash.fields (B.blocks store.new) fields.new)) (hash.form_of fields.new)) }
    ensures changes { Changes (B.blocks store.old) (B.blocks store.new) (hash.refs fields.old) (hash.refs fields.new) }
    ensures served { Served B.step store.old store.new }
{
    match fields.set(store, field, value) {
        Ok(true) => Ok(()),
        Ok(false) => Err(twice(at)),
        Err(_) => Err(LoadFault::Memory),
    }
}

// Gives the fields of a listpack, the payload at an offset, their values.
#[tactic(auto, using(keyspace::proofs::Serving::nothing, keyspace::proofs::Serving::both))]
fn set_pairs<B: BlockStore>(
    fields: &mut Fields,
    store: &mut B,
    pack: &Pack<'_>,
    at: usize,
) -> Result<(), LoadFault>
    requires { hash.IsFields (B.blocks store.old) fields.old }
    ensures makes { Makes (next_found (paired (list_of pack.now)) (all_in with_pair (HashOf (hash.fields (B.blocks store.old) fields.old)))) at (HashOf (hash.fields (B.blocks store.new) fields.new))
        result }
    ensures sound { hash.IsFields (B.blocks store.new) fields.new }
    ensures settings { hash.KeepsSettings fields.old fields.new }
    ensures form { OnOk result
        (IsLeast (FitsFields fields.old.limits (hash.fields (B.blocks store.old) fields.old)) (hash.form_of fields.old)
        → IsLeast (FitsFields fields.old.limits (hash.fields (B.blocks store.new) fields.new)) (hash.form_of fields.new)) }
    ensures changes { Changes (B.blocks store.old) (B.blocks store.new) (hash.refs fields.old) (hash.refs fields.new) }
    ensures served { Served B.step store.old store.new }
{
    let count = pack.len();
    if count % 2 == 1 {
        return Err(no_payload(LoadKind::Listpack, at));
    }
    let mut next = pack.first();
    for _ in 0..count / 2 {
        match next {
            Some(place) => {
                let pair = pair_at(pack, place);
                let (mut buffer, mut other) = (Buffer::new(), Buffer::new());
                let field = element_text(pair.first, &mut buffer);
                let value = element_text(pair.second, &mut other);
                match set_pair(fields, store, field, value, at) {
                    Ok(()) => next = pair.next,
                    Err(fault) => return Err(fault),
                }
            }
            None => unreachable!(),
        }
    }
    Ok(())
}

// Gives the fields of a listpack, the payload at an offset, their values: all at once where the hash takes it whole.
#[tactic(auto, using(keyspace::proofs::Serving::nothing, keyspace::proofs::Serving::both))]
fn take_pairs<B: BlockStore>(
    fields: &mut Fields,
    store: &mut B,
    pack: &Pack<'_>,
    at: usize,
) -> Result<(), LoadFault>
    requires { hash.IsFields (B.blocks store.old) fields.old }
    ensures makes { Makes (next_found (paired (list_of pack.now)) (all_in with_pair (HashOf (hash.fields (B.blocks store.old) fields.old)))) at (HashOf (hash.fields (B.blocks store.new) fields.new))
        result }
    ensures sound { hash.IsFields (B.blocks store.new) fields.new }
    ensures settings { hash.KeepsSettings fields.old fields.new }
    ensures form { OnOk result
        (IsLeast (FitsFields fields.old.limits (hash.fields (B.blocks store.old) fields.old)) (hash.form_of fields.old)
        → IsLeast (FitsFields fields.old.limits (hash.fields (B.blocks store.new) fields.new)) (hash.form_of fields.new)) }
    ensures changes { Changes (B.blocks store.old) (B.blocks store.new) (hash.refs fields.old) (hash.refs fields.new) }
    ensures served { Served B.step store.old store.new }
{
    match fields.take_pack(store, pack) {
        Ok(true) => Ok(()),
        Ok(false) => set_pairs(fields, store, pack, at),
        Err(_) => Err(LoadFault::Memory),
    }
}

// Puts the fields and values that are packed in the payload at an offset into a hash.
#[tactic(auto, using(keyspace::proofs::Serving::nothing, keyspace::proofs::Serving::both))]
fn unpack_pairs<B: BlockStore>(
    fields: &mut Fields,
    store: &mut B,
    payload: &[u8],
    at: usize,
) -> Result<(), LoadFault>
    requires { hash.IsFields (B.blocks store.old) fields.old }
    ensures makes { Makes ((pairs_on (HashOf (hash.fields (B.blocks store.old) fields.old))).found payload.now) at (HashOf (hash.fields (B.blocks store.new) fields.new)) result }
    ensures sound { hash.IsFields (B.blocks store.new) fields.new }
    ensures settings { hash.KeepsSettings fields.old fields.new }
    ensures form { OnOk result
        (IsLeast (FitsFields fields.old.limits (hash.fields (B.blocks store.old) fields.old)) (hash.form_of fields.old)
        → IsLeast (FitsFields fields.old.limits (hash.fields (B.blocks store.new) fields.new)) (hash.form_of fields.new)) }
    ensures changes { Changes (B.blocks store.old) (B.blocks store.new) (hash.refs fields.old) (hash.refs fields.new) }
    ensures served { Served B.step store.old store.new }
{
    match listpack::check(payload) {
        Ok(pack) => take_pairs(fields, store, &pack, at),
        Err(_) => Err(no_payload(LoadKind::Listpack, at)),
    }
}

/// Reads the string at an offset, in which fields and values are packed. The offset behind it is answered.
#[tactic(auto, using(keyspace::proofs::Serving::nothing, keyspace::proofs::Serving::both))]
pub(crate) fn read_fields<B: BlockStore>(
    fields: &mut Fields,
    store: &mut B,
    bytes: &[u8],
    at: usize,
) -> Result<usize, LoadFault>
    requires sound { hash.IsFields (B.blocks store.old) fields.old }
    requires at { at ≤ length bytes.now }
    ensures fills { Reads (inside string (pairs_on (HashOf (hash.fields (B.blocks store.old) fields.old)))) bytes.now at (HashOf (hash.fields (B.blocks store.new) fields.new)) result }
    ensures sound { hash.IsFields (B.blocks store.new) fields.new }
    ensures settings { hash.KeepsSettings fields.old fields.new }
    ensures form { IfOk result
        (λ next. IsLeast (FitsFields fields.old.limits (hash.fields (B.blocks store.old) fields.old)) (hash.form_of fields.old)
        → IsLeast (FitsFields fields.old.limits (hash.fields (B.blocks store.new) fields.new)) (hash.form_of fields.new)) }
    ensures changes { Changes (B.blocks store.old) (B.blocks store.new) (hash.refs fields.old) (hash.refs fields.new) }
    ensures served { Served B.step store.old store.new }
{
    let (payload, next) = match next_string(bytes, at) {
        Ok(read) => read,
        Err(fault) => return Err(refused(fault)),
    };
    let mut buffer = Buffer::new();
    match unpack_pairs(fields, store, text(&payload, &mut buffer), at) {
        Ok(()) => Ok(next),
        Err(fault) => Err(fault),
    }
}

// The kind of a score text's fault.
fn kind_of(fault: ScoreFault) -> LoadKind
    ensures { result ≡ kind_of_score fault }
{
    match fault {
        ScoreFault::Malformed => LoadKind::ScoreForm,
        ScoreFault::NotWhole | ScoreFault::TooLarge => LoadKind::ScoreRange,
    }
}

// The score of an element's text.
fn score_of(element: Element<'_>) -> Result<i64, LoadKind>
    ensures score { IfOk result (λ n. score_in (text_of_element element.entry) ≡ Ok n) }
    ensures fits { IfOk result (λ n. FitsSigned w64 n) }
    ensures fault { IfErr result (λ kind. score_in (text_of_element element.entry) ≡ Err kind) }
{
    let mut buffer = Buffer::new();
    match read_score(element_text(element, &mut buffer)) {
        Ok(score) => Ok(score),
        Err(fault) => Err(kind_of(fault)),
    }
}

// Whether each second text of a listpack of so many pairs is a score.
fn check_scores(pack: &Pack<'_>, count: usize) -> Result<(), LoadKind>
    requires { length (list_of pack.now) ≡ 2 * count }
    ensures scored { OnOk result ((list : List (List ℕ × ℤ)) × (next_found (paired (list_of pack.now)) scored_of ≡ Ok list)) }
    ensures fault { IfErr result (λ kind. next_found (paired (list_of pack.now)) scored_of ≡ Err kind) }
{
    let mut next = pack.first();
    for _ in 0..count {
        match next {
            Some(place) => {
                let pair = pair_at(pack, place);
                match score_of(pair.second) {
                    Ok(_) => next = pair.next,
                    Err(kind) => return Err(kind),
                }
            }
            None => unreachable!(),
        }
    }
    Ok(())
}

// Gives a member of the payload at an offset its score.
#[tactic(auto, using(keyspace::proofs::Serving::nothing, keyspace::proofs::Serving::both))]
fn set_scored<B: BlockStore>(
    scored: &mut Scored,
    store: &mut B,
    member: &[u8],
    score: i64,
    at: usize,
) -> Result<(), LoadFault>
    requires { zset.IsScored (B.blocks store.old) scored.old }
    ensures makes { Makes (with_scored (SortedOf (zset.scores (B.blocks store.old) scored.old)) (member.now, score)) at (SortedOf (zset.scores (B.blocks store.new) scored.new)) result }
    ensures sound { zset.IsScored (B.blocks store.new) scored.new }
    ensures settings { zset.KeepsSettings scored.old scored.new }
    ensures form { OnOk result
        (IsLeast (FitsScored scored.old.limits (zset.scores (B.blocks store.old) scored.old)) (zset.form_of scored.old)
        → IsLeast (FitsScored scored.old.limits (zset.scores (B.blocks store.new) scored.new)) (zset.form_of scored.new)) }
    ensures changes { Changes (B.blocks store.old) (B.blocks store.new) (zset.refs scored.old) (zset.refs scored.new) }
    ensures served { Served B.step store.old store.new }
{
    match scored.set(store, member, score) {
        Ok(true) => Ok(()),
        Ok(false) => Err(twice(at)),
        Err(_) => Err(LoadFault::Memory),
    }
}

// Gives the members of a listpack, the payload at an offset, their scores: what is wrong with a score comes before a member
// that stands twice.
#[tactic(auto, using(keyspace::proofs::Serving::nothing, keyspace::proofs::Serving::both))]
fn set_scores<B: BlockStore>(
    scored: &mut Scored,
    store: &mut B,
    pack: &Pack<'_>,
    at: usize,
) -> Result<(), LoadFault>
    requires { zset.IsScored (B.blocks store.old) scored.old }
    ensures makes { Makes (next_found (next_found (paired (list_of pack.now)) scored_of) (all_in with_scored (SortedOf (zset.scores (B.blocks store.old) scored.old)))) at
        (SortedOf (zset.scores (B.blocks store.new) scored.new)) result }
    ensures sound { zset.IsScored (B.blocks store.new) scored.new }
    ensures settings { zset.KeepsSettings scored.old scored.new }
    ensures form { OnOk result
        (IsLeast (FitsScored scored.old.limits (zset.scores (B.blocks store.old) scored.old)) (zset.form_of scored.old)
        → IsLeast (FitsScored scored.old.limits (zset.scores (B.blocks store.new) scored.new)) (zset.form_of scored.new)) }
    ensures changes { Changes (B.blocks store.old) (B.blocks store.new) (zset.refs scored.old) (zset.refs scored.new) }
    ensures served { Served B.step store.old store.new }
{
    let count = pack.len();
    if count % 2 == 1 {
        return Err(no_payload(LoadKind::Listpack, at));
    }
    match check_scores(pack, count / 2) {
        Ok(()) => {}
        Err(kind) => return Err(no_payload(kind, at)),
    }
    let mut next = pack.first();
    for _ in 0..count / 2 {
        match next {
            Some(place) => {
                let pair = pair_at(pack, place);
                let score = match score_of(pair.second) {
                    Ok(score) => score,
                    Err(kind) => return Err(no_payload(kind, at)),
                };
                let mut buffer = Buffer::new();
                let member = element_text(pair.first, &mut buffer);
                match set_scored(scored, store, member, score, at) {
                    Ok(()) => next = pair.next,
                    Err(fault) => return Err(fault),
                }
            }
            None => unreachable!(),
        }
    }
    Ok(())
}

// Puts the members and scores that are packed in the payload at an offset into a sorted set.
#[tactic(auto, using(keyspace::proofs::Serving::nothing, keyspace::proofs::Serving::both))]
fn unpack_scores<B: BlockStore>(
    scored: &mut Scored,
    store: &mut B,
    payload: &[u8],
    at: usize,
) -> Result<(), LoadFault>
    requires { zset.IsScored (B.blocks store.old) scored.old }
    ensures makes { Makes ((scores_on (SortedOf (zset.scores (B.blocks store.old) scored.old))).found payload.now) at (SortedOf (zset.scores (B.blocks store.new) scored.new)) result }
    ensures sound { zset.IsScored (B.blocks store.new) scored.new }
    ensures settings { zset.KeepsSettings scored.old scored.new }
    ensures form { OnOk result
        (IsLeast (FitsScored scored.old.limits (zset.scores (B.blocks store.old) scored.old)) (zset.form_of scored.old)
        → IsLeast (FitsScored scored.old.limits (zset.scores (B.blocks store.new) scored.new)) (zset.form_of scored.new)) }
    ensures changes { Changes (B.blocks store.old) (B.blocks store.new) (zset.refs scored.old) (zset.refs scored.new) }
    ensures served { Served B.step store.old store.new }
{
    match listpack::check(payload) {
        Ok(pack) => set_scores(scored, store, &pack, at),
        Err(_) => Err(no_payload(LoadKind::Listpack, at)),
    }
}

/// Reads the string at an offset, in which members and scores are packed. The offset behind it is answered.
#[tactic(auto, using(keyspace::proofs::Serving::nothing, keyspace::proofs::Serving::both))]
pub(crate) fn read_scored<B: BlockStore>(
    scored: &mut Scored,
    store: &mut B,
    bytes: &[u8],
    at: usize,
) -> Result<usize, LoadFault>
    requires sound { zset.IsScored (B.blocks store.old) scored.old }
    requires at { at ≤ length bytes.now }
    ensures fills { Reads (inside string (scores_on (SortedOf (zset.scores (B.blocks store.old) scored.old)))) bytes.now at (SortedOf (zset.scores (B.blocks store.new) scored.new)) result }
    ensures sound { zset.IsScored (B.blocks store.new) scored.new }
    ensures settings { zset.KeepsSettings scored.old scored.new }
    ensures form { IfOk result
        (λ next. IsLeast (FitsScored scored.old.limits (zset.scores (B.blocks store.old) scored.old)) (zset.form_of scored.old)
        → IsLeast (FitsScored scored.old.limits (zset.scores (B.blocks store.new) scored.new)) (zset.form_of scored.new)) }
    ensures changes { Changes (B.blocks store.old) (B.blocks store.new) (zset.refs scored.old) (zset.refs scored.new) }
    ensures served { Served B.step store.old store.new }
{
    let (payload, next) = match next_string(bytes, at) {
        Ok(read) => read,
        Err(fault) => return Err(refused(fault)),
    };
    let mut buffer = Buffer::new();
    match unpack_scores(scored, store, text(&payload, &mut buffer), at) {
        Ok(()) => Ok(next),
        Err(fault) => Err(fault),
    }
}
