//! Commands that count on a string that is a number.

ghost use Rattle.std.specs.Prelude.{◌≡◌, ◌<◌, List, Option, ℕ, ℤ, pos, [], ◌∷◌, None, Some, IfOk, OnOk};
ghost use Rattle.plain_world.specs.Worlds.{Entry, look};
ghost use Rattle.int_text.specs.Decimal.{canonical};
ghost use Rattle.plain_model.specs.StringSteps.{change};
ghost use Rattle.plain_world.specs.declared.reply.Part.TheVariants as parts;
ghost use Rattle.plain_model.specs.declared.command.StringCommand.TheVariants as strings;
ghost use Rattle.keyspace.specs.Scopes.{one_key};
ghost use Rattle.keyspace.specs.Forms.{Whole, Formed, FormedString};
ghost use Rattle.keyspace.specs.Values.{IsWrittenWhole};
ghost use Rattle.keyspace.specs.Commands.{Ready, KeepsTo, KeepsOrRefuses, visible};
ghost use Rattle.keyspace.specs.Seeking.{Sees};
ghost use Rattle.held.specs.Calls.{AllAt, Seeks, StandsAt};
ghost use Rattle.cmd_values.specs.Found.{Gives, IsString};
ghost use Rattle.cmd_values.specs.Counted.{IsCounted};

use crate::strings::look::sought_text;
use blocks::BlockStore;
use keyspace::{Keyspace, Lifted, Look, Sought, SoughtAt, Value, seek};
use plain_model::{Ctx, Memory, Refusal, Reply};
use string_object::Text;

// What a command that counts finds at a key.
enum Counted {
    // A number; where nothing stands it is 0.
    Number(i64),
    // A string that is none.
    NoNumber,
    // A value of another type.
    Other,
}

// The number at a key.
fn number_at<B: BlockStore>(
    keyspace: &Keyspace<B>,
    at: &Ctx,
    key: &[u8],
    found: SoughtAt,
) -> Counted
    requires ready { Ready B.blocks keyspace.now at.now }
    requires sees { Sees B.blocks keyspace.now at.now key.now found }
    ensures { IsCounted (visible B.blocks keyspace.now at.now) key.now result }
{
    match sought_text(keyspace, at, key, found) {
        Look::Missing => Counted::Number(0),
        Look::Other => Counted::Other,
        Look::There(text) => match text.number(&keyspace.store) {
            Some(n) => Counted::Number(n),
            None => Counted::NoNumber,
        },
    }
}

// Lets the text of a number stand at a key where nothing stands yet.
fn put_number<B: BlockStore>(
    keyspace: &mut Keyspace<B>,
    at: &Ctx,
    key: &[u8],
    sought: Sought,
    n: i64,
) -> Result<(), Memory>
    requires ready { Ready B.blocks keyspace.old at.now }
    requires seeks { Seeks keyspace.old.bases (B.blocks keyspace.old.store) at.now.db key.now sought }
    requires none { look (visible B.blocks keyspace.old at.now) key.now ≡ None }
    ensures world { OnOk result (visible B.blocks keyspace.new at.now ≡ change (visible B.blocks keyspace.old at.now) key.now (canonical n)) }
    ensures held { KeepsTo B.blocks B.step (one_key at.now.db key.now) keyspace.old keyspace.new }
    ensures forms { OnOk result (Formed B.blocks Whole keyspace.old keyspace.new) }
    ensures whole { OnOk result (AllAt IsWrittenWhole keyspace.new.bases (B.blocks keyspace.new.store) at.now.db key.now) }
{
    keyspace.put_sought(at.db, key, sought, Value::Text(Text::Number(n)), None)
}

// Lets the text of a number stand at a key, with the deadline that is there, and answers the number.
fn write_number<B: BlockStore>(
    keyspace: &mut Keyspace<B>,
    at: &Ctx,
    key: &[u8],
    found: SoughtAt,
    n: i64,
) -> Result<Reply, Memory>
    requires ready { Ready B.blocks keyspace.old at.now }
    requires sees { Sees B.blocks keyspace.old at.now key.now found }
    requires string { (entry : Entry) → look (visible B.blocks keyspace.old at.now) key.now ≡ Some entry → IsString entry.value }
    ensures reply { IfOk result (λ reply. reply ≡ parts.Number n ∷ []) }
    ensures world { OnOk result (visible B.blocks keyspace.new at.now ≡ change (visible B.blocks keyspace.old at.now) key.now (canonical n)) }
    ensures held { KeepsTo B.blocks B.step (one_key at.now.db key.now) keyspace.old keyspace.new }
    ensures forms { IfOk result (λ reply. FormedString B.blocks at.now.db (visible B.blocks keyspace.old at.now) (strings.Incr key.now) reply keyspace.old keyspace.new) }
{
    let alloc = keyspace.alloc();
    match found.there {
        None => {
            put_number(keyspace, at, key, found.sought, n)?;
            Reply::number(alloc, n)
        }
        Some(there) => {
            let lifted = keyspace.lift_at(at.db, there);
            let Lifted { db, item, value } = lifted;
            let mut text = value.into_text();
            text.set_number(&mut keyspace.store, n);
            let value = Value::Text(text);
            keyspace.lower(Lifted { db, item, value });
            Reply::number(alloc, n)
        }
    }
}

/// `INCRBY key n`: the number that is n more.
#[tactic(auto, using(crate::proofs::StringLemmas::counted_on, crate::proofs::StringLemmas::not_counted))]
pub fn incrby<B: BlockStore>(
    keyspace: &mut Keyspace<B>,
    at: &Ctx,
    key: &[u8],
    by: i64,
) -> Result<Reply, Memory>
    requires ready { Ready B.blocks keyspace.old at.now }
    ensures gives { Gives B.blocks keyspace.old keyspace.new at.now (strings.IncrBy key.now by) result }
    ensures kept { KeepsOrRefuses B.blocks B.step (one_key at.now.db key.now) keyspace.old keyspace.new result }
    ensures forms { IfOk result (λ reply. FormedString B.blocks at.now.db (visible B.blocks keyspace.old at.now) (strings.IncrBy key.now by) reply keyspace.old keyspace.new) }
{
    let found = seek(keyspace, at, key);
    match number_at(keyspace, at, key, found) {
        Counted::Other => Reply::refused(keyspace.alloc(), Refusal::WrongType),
        Counted::NoNumber => Reply::refused(keyspace.alloc(), Refusal::NotAnInteger),
        Counted::Number(n) => match n.checked_add(by) {
            None => Reply::refused(keyspace.alloc(), Refusal::Overflow),
            Some(next) => write_number(keyspace, at, key, found, next),
        },
    }
}

/// `DECRBY key n`: the number that is n less.
#[tactic(auto, using(crate::proofs::StringLemmas::counted_on, crate::proofs::StringLemmas::not_counted))]
pub fn decrby<B: BlockStore>(
    keyspace: &mut Keyspace<B>,
    at: &Ctx,
    key: &[u8],
    by: i64,
) -> Result<Reply, Memory>
    requires ready { Ready B.blocks keyspace.old at.now }
    ensures gives { Gives B.blocks keyspace.old keyspace.new at.now (strings.DecrBy key.now by) result }
    ensures kept { KeepsOrRefuses B.blocks B.step (one_key at.now.db key.now) keyspace.old keyspace.new result }
    ensures forms { IfOk result (λ reply. FormedString B.blocks at.now.db (visible B.blocks keyspace.old at.now) (strings.DecrBy key.now by) reply keyspace.old keyspace.new) }
{
    let found = seek(keyspace, at, key);
    match number_at(keyspace, at, key, found) {
        Counted::Other => Reply::refused(keyspace.alloc(), Refusal::WrongType),
        Counted::NoNumber => Reply::refused(keyspace.alloc(), Refusal::NotAnInteger),
        Counted::Number(n) => match n.checked_sub(by) {
            None => Reply::refused(keyspace.alloc(), Refusal::Overflow),
            Some(next) => write_number(keyspace, at, key, found, next),
        },
    }
}

/// `INCR key`: the number that is one more.
pub fn incr<B: BlockStore>(
    keyspace: &mut Keyspace<B>,
    at: &Ctx,
    key: &[u8],
) -> Result<Reply, Memory>
    requires ready { Ready B.blocks keyspace.old at.now }
    ensures gives { Gives B.blocks keyspace.old keyspace.new at.now (strings.Incr key.now) result }
    ensures kept { KeepsOrRefuses B.blocks B.step (one_key at.now.db key.now) keyspace.old keyspace.new result }
    ensures forms { IfOk result (λ reply. FormedString B.blocks at.now.db (visible B.blocks keyspace.old at.now) (strings.Incr key.now) reply keyspace.old keyspace.new) }
{
    incrby(keyspace, at, key, 1)
}

/// `DECR key`: the number that is one less.
pub fn decr<B: BlockStore>(
    keyspace: &mut Keyspace<B>,
    at: &Ctx,
    key: &[u8],
) -> Result<Reply, Memory>
    requires ready { Ready B.blocks keyspace.old at.now }
    ensures gives { Gives B.blocks keyspace.old keyspace.new at.now (strings.Decr key.now) result }
    ensures kept { KeepsOrRefuses B.blocks B.step (one_key at.now.db key.now) keyspace.old keyspace.new result }
    ensures forms { IfOk result (λ reply. FormedString B.blocks at.now.db (visible B.blocks keyspace.old at.now) (strings.Decr key.now) reply keyspace.old keyspace.new) }
{
    decrby(keyspace, at, key, 1)
}
