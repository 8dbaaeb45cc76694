//! Commands that write strings whole.

ghost use Rattle.std.specs.Prelude.{◌≡◌, ◌<◌, ◌≤◌, List, ℕ, Bool, IfOk, OnOk, IfSome, is_some, true, if◌then◌else◌};
ghost use Rattle.plain_world.specs.Worlds.{Str, deadline_of, look, stand};
ghost use Rattle.held.specs.Calls.{AllAt, IsDeadline, Seeks};
ghost use Rattle.keyspace.specs.Seeking.{Sees};
ghost use Rattle.plain_model.specs.Outcomes.{leaves};
ghost use Rattle.plain_model.specs.StringSteps.{replace, replace_all, any_there, allows, set_outcome};
ghost use Rattle.plain_model.specs.declared.command.Condition.{Condition};
ghost use Rattle.plain_model.specs.declared.command.StringCommand.TheVariants as strings;
ghost use Rattle.keyspace.specs.Scopes.{one_key, no_key, some_keys, first_words};
ghost use Rattle.keyspace.specs.Forms.{Whole, Formed, FormedString, ArePlaced, places_whole, whole_where};
ghost use Rattle.keyspace.specs.Values.{IsWrittenWhole};
ghost use Rattle.keyspace.specs.Commands.{Ready, KeepsTo, KeepsOrRefuses, visible};
ghost use Rattle.cmd_values.specs.Found.{Gives, IsSetReply, IsLifetime, IsOldValue};

use crate::strings::lasting::from_zero;
use crate::strings::look::{old_value, sought_value};
use blocks::BlockStore;
use keyspace::{Keyspace, Sought, SoughtAt, Value, deadline_at, seek};
use plain_model::{Condition, Ctx, Lifetime, Line, Memory, Refusal, Reply, SetOptions, Word};
use string_object::Text;

// What a search for a key finds. It is made here where it wasn't made before.
fn sought_of<B: BlockStore>(
    keyspace: &Keyspace<B>,
    at: &Ctx,
    key: &[u8],
    found: Option<SoughtAt>,
) -> Sought
    requires ready { Ready B.blocks keyspace.now at.now }
    requires sees { IfSome found (λ found. Sees B.blocks keyspace.now at.now key.now found) }
    ensures { Seeks keyspace.now.bases (B.blocks keyspace.now.store) at.now.db key.now result }
{
    match found {
        None => keyspace.seek(at.db, key),
        Some(found) => found.sought,
    }
}

/// Lets a string stand at a key, with this deadline in milliseconds or without one; by one that is past already nothing
/// stands there. What was found of the key is handed in where it was sought before.
pub fn put_lasting<B: BlockStore>(
    keyspace: &mut Keyspace<B>,
    at: &Ctx,
    key: &[u8],
    found: Option<SoughtAt>,
    value: &[u8],
    deadline: Option<u64>,
) -> Result<(), Memory>
    requires ready { Ready B.blocks keyspace.old at.now }
    requires sees { IfSome found (λ found. Sees B.blocks keyspace.old at.now key.now found) }
    requires latest { IsDeadline deadline }
    ensures world { OnOk result (visible B.blocks keyspace.new at.now ≡ stand (visible B.blocks keyspace.old at.now) at.now.moment key.now (record { value = Str value.now; deadline = deadline })) }
    ensures held { KeepsTo B.blocks B.step (one_key at.now.db key.now) keyspace.old keyspace.new }
    ensures forms { OnOk result (Formed B.blocks Whole keyspace.old keyspace.new) }
    ensures whole { OnOk result (AllAt IsWrittenWhole keyspace.new.bases (B.blocks keyspace.new.store) at.now.db key.now) }
{
    let sought = sought_of(keyspace, at, key, found);
    let text = Text::make(&mut keyspace.store, value)?;
    keyspace.put_sought(at.db, key, sought, Value::Text(text), deadline)
}

/// Lets a string stand at a key, without a deadline.
pub fn put_string<B: BlockStore>(
    keyspace: &mut Keyspace<B>,
    at: &Ctx,
    key: &[u8],
    found: Option<SoughtAt>,
    value: &[u8],
) -> Result<(), Memory>
    requires ready { Ready B.blocks keyspace.old at.now }
    requires sees { IfSome found (λ found. Sees B.blocks keyspace.old at.now key.now found) }
    ensures world { OnOk result (visible B.blocks keyspace.new at.now ≡ replace (visible B.blocks keyspace.old at.now) key.now value.now) }
    ensures held { KeepsTo B.blocks B.step (one_key at.now.db key.now) keyspace.old keyspace.new }
    ensures forms { OnOk result (Formed B.blocks Whole keyspace.old keyspace.new) }
    ensures whole { OnOk result (AllAt IsWrittenWhole keyspace.new.bases (B.blocks keyspace.new.store) at.now.db key.now) }
{
    put_lasting(keyspace, at, key, found, value, None)
}

// Whether something stands at a key.
fn is_there<B: BlockStore>(keyspace: &Keyspace<B>, at: &Ctx, key: &[u8]) -> bool
    requires ready { Ready B.blocks keyspace.now at.now }
    ensures { result ≡ is_some (look (visible B.blocks keyspace.now at.now) key.now) }
{
    keyspace.look(at.db, key, at.moment).is_some()
}

// Whether something stands at a key, by what was found of it, where it was sought before.
fn is_seen<B: BlockStore>(
    keyspace: &Keyspace<B>,
    at: &Ctx,
    key: &[u8],
    found: Option<SoughtAt>,
) -> bool
    requires ready { Ready B.blocks keyspace.now at.now }
    requires sees { IfSome found (λ found. Sees B.blocks keyspace.now at.now key.now found) }
    ensures { result ≡ is_some (look (visible B.blocks keyspace.now at.now) key.now) }
{
    match found {
        None => is_there(keyspace, at, key),
        Some(found) => found.there.is_some(),
    }
}

// Whether SET writes. Only NX and XX ask for the key.
fn writes<B: BlockStore>(
    keyspace: &Keyspace<B>,
    at: &Ctx,
    key: &[u8],
    found: Option<SoughtAt>,
    condition: Condition,
) -> bool
    requires ready { Ready B.blocks keyspace.now at.now }
    requires sees { IfSome found (λ found. Sees B.blocks keyspace.now at.now key.now found) }
    ensures { result ≡ allows condition (is_some (look (visible B.blocks keyspace.now at.now) key.now)) }
{
    match condition {
        Condition::Always => true,
        Condition::IfMissing => !is_seen(keyspace, at, key, found),
        Condition::IfThere => is_seen(keyspace, at, key, found),
    }
}

// The string at a key as a reply, by what was found of the key, where it was sought before. `None` comes exactly where a value of
// another type stands there.
fn seen_value<B: BlockStore>(
    keyspace: &Keyspace<B>,
    at: &Ctx,
    key: &[u8],
    found: Option<SoughtAt>,
) -> Result<Option<Reply>, Memory>
    requires ready { Ready B.blocks keyspace.now at.now }
    requires sees { IfSome found (λ found. Sees B.blocks keyspace.now at.now key.now found) }
    ensures { IfOk result (λ reply. IsOldValue (visible B.blocks keyspace.now at.now) key.now reply) }
{
    match found {
        None => old_value(keyspace, at, key),
        Some(found) => sought_value(keyspace, at, key, found),
    }
}

// The reply of SET: the old value where it is asked for, else OK, or null where nothing is written.
fn set_reply<B: BlockStore>(
    keyspace: &Keyspace<B>,
    at: &Ctx,
    key: &[u8],
    found: Option<SoughtAt>,
    get: bool,
    written: bool,
) -> Result<Option<Reply>, Memory>
    requires ready { Ready B.blocks keyspace.now at.now }
    requires sees { IfSome found (λ found. Sees B.blocks keyspace.now at.now key.now found) }
    ensures { IfOk result (λ reply. IsSetReply (visible B.blocks keyspace.now at.now) key.now get written reply) }
{
    if get {
        return seen_value(keyspace, at, key, found);
    }
    if written {
        return Ok(Some(Reply::simple(keyspace.alloc(), Line::ok())?));
    }
    Ok(Some(Reply::null(keyspace.alloc())?))
}

// The deadline of a key that is there, by what was found of it, where it was sought before.
fn seen_deadline<B: BlockStore>(
    keyspace: &Keyspace<B>,
    at: &Ctx,
    key: &[u8],
    found: Option<SoughtAt>,
) -> Option<u64>
    requires ready { Ready B.blocks keyspace.now at.now }
    requires sees { IfSome found (λ found. Sees B.blocks keyspace.now at.now key.now found) }
    ensures value { result ≡ deadline_of (look (visible B.blocks keyspace.now at.now) key.now) }
    ensures latest { IsDeadline result }
{
    match found {
        None => deadline_at(keyspace, at, key),
        Some(found) => match found.there {
            None => None,
            Some(_) => found.deadline,
        },
    }
}

// The deadline that SET gives, or none. `None` where 64 bits with a sign don't hold it.
fn lifetime_at<B: BlockStore>(
    keyspace: &Keyspace<B>,
    at: &Ctx,
    key: &[u8],
    found: Option<SoughtAt>,
    lifetime: Lifetime,
) -> Option<Option<u64>>
    requires ready { Ready B.blocks keyspace.now at.now }
    requires sees { IfSome found (λ found. Sees B.blocks keyspace.now at.now key.now found) }
    ensures is { IsLifetime (visible B.blocks keyspace.now at.now) at.now.moment key.now lifetime result }
    ensures latest { IfSome result (λ deadline. IsDeadline deadline) }
{
    match lifetime {
        Lifetime::Forever => Some(None),
        Lifetime::Kept => Some(seen_deadline(keyspace, at, key, found)),
        Lifetime::Until(time) => match time.due(at.moment) {
            None => None,
            Some(due) => Some(Some(from_zero(due))),
        },
    }
}

// Lets a string stand at a key where SET writes.
fn put_if<B: BlockStore>(
    keyspace: &mut Keyspace<B>,
    at: &Ctx,
    key: &[u8],
    found: Option<SoughtAt>,
    value: &[u8],
    deadline: Option<u64>,
    written: bool,
) -> Result<(), Memory>
    requires ready { Ready B.blocks keyspace.old at.now }
    requires sees { IfSome found (λ found. Sees B.blocks keyspace.old at.now key.now found) }
    requires latest { IsDeadline deadline }
    ensures world { OnOk result
        (visible B.blocks keyspace.new at.now ≡
        (if written then stand (visible B.blocks keyspace.old at.now) at.now.moment key.now (record { value = Str value.now; deadline = deadline }) else visible B.blocks keyspace.old at.now)) }
    ensures held { KeepsTo B.blocks B.step (one_key at.now.db key.now) keyspace.old keyspace.new }
    ensures forms { OnOk result (Formed B.blocks (whole_where written) keyspace.old keyspace.new) }
    ensures whole { OnOk result (written ≡ true → AllAt IsWrittenWhole keyspace.new.bases (B.blocks keyspace.new.store) at.now.db key.now) }
{
    if written {
        return put_lasting(keyspace, at, key, found, value, deadline);
    }
    Ok(())
}

// SET with the deadline that it gives.
fn set_lasting<B: BlockStore>(
    keyspace: &mut Keyspace<B>,
    at: &Ctx,
    key: &[u8],
    found: Option<SoughtAt>,
    value: &[u8],
    options: SetOptions,
    deadline: Option<u64>,
) -> Result<Reply, Memory>
    requires ready { Ready B.blocks keyspace.old at.now }
    requires sees { IfSome found (λ found. Sees B.blocks keyspace.old at.now key.now found) }
    requires latest { IsDeadline deadline }
    ensures gives { IfOk result
        (λ reply. set_outcome (visible B.blocks keyspace.old at.now) at.now.moment key.now (record { value = Str value.now; deadline = deadline }) options.condition options.get ≡ leaves
        reply (visible B.blocks keyspace.new at.now)) }
    ensures kept { KeepsOrRefuses B.blocks B.step (one_key at.now.db key.now) keyspace.old keyspace.new result }
    ensures forms { IfOk result (λ reply. FormedString B.blocks at.now.db (visible B.blocks keyspace.old at.now) (strings.Set key.now value.now options) reply keyspace.old keyspace.new) }
{
    let written = writes(keyspace, at, key, found, options.condition);
    match set_reply(keyspace, at, key, found, options.get, written)? {
        None => Reply::refused(keyspace.alloc(), Refusal::WrongType),
        Some(reply) => {
            put_if(keyspace, at, key, found, value, deadline, written)?;
            Ok(reply)
        }
    }
}

// What is found of the key of SET where its options ask for what stands there, so that it is sought once. Without them the key is
// sought where the value is put.
fn found_by<B: BlockStore>(
    keyspace: &Keyspace<B>,
    at: &Ctx,
    key: &[u8],
    options: SetOptions,
) -> Option<SoughtAt>
    requires ready { Ready B.blocks keyspace.now at.now }
    ensures { IfSome result (λ found. Sees B.blocks keyspace.now at.now key.now found) }
{
    match (options.condition, options.get, options.lifetime) {
        (Condition::Always, false, Lifetime::Forever | Lifetime::Until(_)) => None,
        _ => Some(seek(keyspace, at, key)),
    }
}

/// `SET key value [NX or XX] [GET] [EX s, PX ms, EXAT s, PXAT ms or KEEPTTL]`: OK, or null where nothing is written; with
/// GET the old value or null.
pub fn set<B: BlockStore>(
    keyspace: &mut Keyspace<B>,
    at: &Ctx,
    key: &[u8],
    value: &[u8],
    options: SetOptions,
) -> Result<Reply, Memory>
    requires ready { Ready B.blocks keyspace.old at.now }
    ensures gives { Gives B.blocks keyspace.old keyspace.new at.now (strings.Set key.now value.now options) result }
    ensures kept { KeepsOrRefuses B.blocks B.step (one_key at.now.db key.now) keyspace.old keyspace.new result }
    ensures forms { IfOk result (λ reply. FormedString B.blocks at.now.db (visible B.blocks keyspace.old at.now) (strings.Set key.now value.now options) reply keyspace.old keyspace.new) }
{
    let found = found_by(keyspace, at, key, options);
    match lifetime_at(keyspace, at, key, found, options.lifetime) {
        None => Reply::refused(keyspace.alloc(), Refusal::InvalidExpireTime),
        Some(deadline) => set_lasting(keyspace, at, key, found, value, options, deadline),
    }
}

/// `SETNX key value`: 1, or 0 where something stands at the key already, whatever its type.
pub fn setnx<B: BlockStore>(
    keyspace: &mut Keyspace<B>,
    at: &Ctx,
    key: &[u8],
    value: &[u8],
) -> Result<Reply, Memory>
    requires ready { Ready B.blocks keyspace.old at.now }
    ensures gives { Gives B.blocks keyspace.old keyspace.new at.now (strings.SetNx key.now value.now) result }
    ensures kept { KeepsOrRefuses B.blocks B.step (one_key at.now.db key.now) keyspace.old keyspace.new result }
    ensures forms { IfOk result (λ reply. FormedString B.blocks at.now.db (visible B.blocks keyspace.old at.now) (strings.SetNx key.now value.now) reply keyspace.old keyspace.new) }
{
    let found = Some(seek(keyspace, at, key));
    if is_seen(keyspace, at, key, found) {
        return Reply::number(keyspace.alloc(), 0);
    }
    put_string(keyspace, at, key, found, value)?;
    Reply::number(keyspace.alloc(), 1)
}

/// `GETSET key value`: the old value, or null.
pub fn getset<B: BlockStore>(
    keyspace: &mut Keyspace<B>,
    at: &Ctx,
    key: &[u8],
    value: &[u8],
) -> Result<Reply, Memory>
    requires ready { Ready B.blocks keyspace.old at.now }
    ensures gives { Gives B.blocks keyspace.old keyspace.new at.now (strings.GetSet key.now value.now) result }
    ensures kept { KeepsOrRefuses B.blocks B.step (one_key at.now.db key.now) keyspace.old keyspace.new result }
    ensures forms { IfOk result (λ reply. FormedString B.blocks at.now.db (visible B.blocks keyspace.old at.now) (strings.GetSet key.now value.now) reply keyspace.old keyspace.new) }
{
    let found = Some(seek(keyspace, at, key));
    match seen_value(keyspace, at, key, found)? {
        None => Reply::refused(keyspace.alloc(), Refusal::WrongType),
        Some(reply) => {
            put_string(keyspace, at, key, found, value)?;
            Ok(reply)
        }
    }
}

/// `GETDEL key`: the value, or null; the key is removed.
pub fn getdel<B: BlockStore>(
    keyspace: &mut Keyspace<B>,
    at: &Ctx,
    key: &[u8],
) -> Result<Reply, Memory>
    requires ready { Ready B.blocks keyspace.old at.now }
    ensures gives { Gives B.blocks keyspace.old keyspace.new at.now (strings.GetDel key.now) result }
    ensures kept { KeepsOrRefuses B.blocks B.step (no_key at.now.db) keyspace.old keyspace.new result }
{
    let found = seek(keyspace, at, key);
    match sought_value(keyspace, at, key, found)? {
        None => Reply::refused(keyspace.alloc(), Refusal::WrongType),
        Some(reply) => {
            let _ = keyspace.drop_hashed(at.db, found.sought.hash, key);
            Ok(reply)
        }
    }
}

// Whether something stands at one of the keys.
fn is_any_there<B: BlockStore>(
    keyspace: &Keyspace<B>,
    at: &Ctx,
    pairs: &[(Word<'_>, Word<'_>)],
) -> bool
    requires ready { Ready B.blocks keyspace.now at.now }
    ensures { result ≡ any_there (visible B.blocks keyspace.now at.now) pairs.now }
{
    let mut rest = pairs;
    'pairs: while let [pair, others @ ..] = rest {
        if is_there(keyspace, at, pair.0.as_slice()) {
            return true;
        }
        rest = others;
    }
    false
}

// Lets each string stand at its key, in turn.
fn put_pairs<B: BlockStore>(
    keyspace: &mut Keyspace<B>,
    at: &Ctx,
    pairs: &[(Word<'_>, Word<'_>)],
) -> Result<(), Memory>
    requires ready { Ready B.blocks keyspace.old at.now }
    ensures world { OnOk result (visible B.blocks keyspace.new at.now ≡ replace_all (visible B.blocks keyspace.old at.now) pairs.now) }
    ensures held { KeepsTo B.blocks B.step (some_keys at.now.db (first_words pairs.now)) keyspace.old keyspace.new }
    ensures forms { OnOk result (Formed B.blocks Whole keyspace.old keyspace.new) }
    ensures whole { OnOk result (ArePlaced (places_whole at.now.db pairs.now) keyspace.old.bases keyspace.new.bases (B.blocks keyspace.old.store) (B.blocks keyspace.new.store)) }
{
    for pair in pairs {
        put_string(keyspace, at, pair.0.as_slice(), None, pair.1.as_slice())?;
    }
    Ok(())
}

/// `MSET key value..`: OK; each key in turn.
pub fn mset<B: BlockStore>(
    keyspace: &mut Keyspace<B>,
    at: &Ctx,
    pairs: &[(Word<'_>, Word<'_>)],
) -> Result<Reply, Memory>
    requires ready { Ready B.blocks keyspace.old at.now }
    ensures gives { Gives B.blocks keyspace.old keyspace.new at.now (strings.MSet pairs.now) result }
    ensures kept { KeepsOrRefuses B.blocks B.step (some_keys at.now.db (first_words pairs.now)) keyspace.old keyspace.new result }
    ensures forms { IfOk result (λ reply. FormedString B.blocks at.now.db (visible B.blocks keyspace.old at.now) (strings.MSet pairs.now) reply keyspace.old keyspace.new) }
{
    put_pairs(keyspace, at, pairs)?;
    Reply::simple(keyspace.alloc(), Line::ok())
}

/// `MSETNX key value..`: 1, or 0 and nothing is written where something stands at one of the keys, whatever its type.
pub fn msetnx<B: BlockStore>(
    keyspace: &mut Keyspace<B>,
    at: &Ctx,
    pairs: &[(Word<'_>, Word<'_>)],
) -> Result<Reply, Memory>
    requires ready { Ready B.blocks keyspace.old at.now }
    ensures gives { Gives B.blocks keyspace.old keyspace.new at.now (strings.MSetNx pairs.now) result }
    ensures kept { KeepsOrRefuses B.blocks B.step (some_keys at.now.db (first_words pairs.now)) keyspace.old keyspace.new result }
    ensures forms { IfOk result (λ reply. FormedString B.blocks at.now.db (visible B.blocks keyspace.old at.now) (strings.MSetNx pairs.now) reply keyspace.old keyspace.new) }
{
    if is_any_there(keyspace, at, pairs) {
        return Reply::number(keyspace.alloc(), 0);
    }
    put_pairs(keyspace, at, pairs)?;
    Reply::number(keyspace.alloc(), 1)
}
