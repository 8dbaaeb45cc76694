//! The command that counts on the number of a field.

ghost use Rattle.std.specs.Prelude.{◌≡◌, ℕ, List, Option, [], ◌∷◌, Some, IfSome, IfNone, IfOk, OnOk, FitsSigned};
ghost use Rattle.int_text.specs.Decimal.{canonical, IsI64Text};
ghost use Rattle.std.specs.Int.{w64};
ghost use Rattle.listpack.specs.Element.{element_text};
ghost use Rattle.held.specs.Calls.{Seeks};
ghost use Rattle.plain_world.specs.declared.reply.Part.TheVariants as parts;
ghost use Rattle.plain_model.specs.HashSteps.{number_in};
ghost use Rattle.plain_model.specs.declared.hash_command.HashCommand.TheVariants as hashes;
ghost use Rattle.keyspace.specs.Scopes.{one_key};
ghost use Rattle.keyspace.specs.Forms.{Formed, hash_form, hash_to};
ghost use Rattle.keyspace.specs.Commands.{Ready, KeepsTo, KeepsOrRefuses, visible};
ghost use Rattle.cmd_hashes.specs.Found.{Gives};
ghost use Rattle.cmd_hashes.specs.Changed.{IsHashThere, IsValue};
ghost use Rattle.cmd_hashes.specs.Set.{IsSet};

use crate::changing::hash_sought;
use crate::setting::set_field_at;
use crate::there::value_there;
use blocks::BlockStore;
use int_text::read_i64;
use itoa::Buffer;
use keyspace::{Keyspace, Look, Sought, seek};
use listpack::Element;
use plain_model::{Ctx, Memory, Refusal, Reply};

// The number whose text an element has.
fn number_from(element: Element<'_>) -> Option<i64>
    ensures number { IfSome result (λ n. element_text element.entry ≡ canonical n) }
    ensures fits { IfSome result (λ n. FitsSigned w64 n) }
    ensures none { IfNone result (¬ (IsI64Text (element_text element.entry))) }
{
    match element {
        Element::Text(text) => read_i64(text),
        Element::Number(n) => Some(n),
    }
}

// The number in a field of the hash at a key that was sought, 0 where it isn't there. `None` where its value is none.
fn number_there<B: BlockStore>(
    keyspace: &Keyspace<B>,
    at: &Ctx,
    key: &[u8],
    there: Option<usize>,
    field: &[u8],
) -> Option<i64>
    requires ready { Ready B.blocks keyspace.now at.now }
    requires there { IsHashThere (visible B.blocks keyspace.now at.now) keyspace.now.bases (B.blocks keyspace.now.store) at.now.db key.now at.now.moment there }
    ensures { (value : Option (List ℕ)) × IsValue (visible B.blocks keyspace.now at.now) key.now field.now value × (number_in value ≡ result) }
{
    match value_there(keyspace, at, key, there, field) {
        None => Some(0),
        Some(element) => number_from(element),
    }
}

// Lets the text of a number stand in a field, and answers the number.
fn write_number<B: BlockStore>(
    keyspace: &mut Keyspace<B>,
    at: &Ctx,
    key: &[u8],
    sought: Sought,
    there: Option<usize>,
    field: &[u8],
    n: i64,
) -> Result<Reply, Memory>
    requires ready { Ready B.blocks keyspace.old at.now }
    requires seeks { Seeks keyspace.old.bases (B.blocks keyspace.old.store) at.now.db key.now sought }
    requires there { IsHashThere (visible B.blocks keyspace.old at.now) keyspace.old.bases (B.blocks keyspace.old.store) at.now.db key.now at.now.moment there }
    ensures reply { IfOk result (λ reply. reply ≡ parts.Number n ∷ []) }
    ensures set { OnOk result ((fresh : ℕ) × IsSet (visible B.blocks keyspace.old at.now) key.now ((field.now, canonical n) ∷ []) fresh (visible B.blocks keyspace.new at.now)) }
    ensures held { KeepsTo B.blocks B.step (one_key at.now.db key.now) keyspace.old keyspace.new }
    ensures forms { OnOk result (Formed B.blocks (hash_to at.now.db (visible B.blocks keyspace.old at.now) key.now ((field.now, canonical n) ∷ [])) keyspace.old keyspace.new) }
{
    let alloc = keyspace.alloc();
    let mut room = Buffer::new();
    let text = room.format(n).as_bytes();
    set_field_at(keyspace, at, key, sought, there, field, text)?;
    Reply::number(alloc, n)
}

// Counts on the number in a field, which is at hand.
fn count_on<B: BlockStore>(
    keyspace: &mut Keyspace<B>,
    at: &Ctx,
    key: &[u8],
    sought: Sought,
    there: Option<usize>,
    field: &[u8],
    n: i64,
    by: i64,
) -> Result<Reply, Memory>
    requires ready { Ready B.blocks keyspace.old at.now }
    requires seeks { Seeks keyspace.old.bases (B.blocks keyspace.old.store) at.now.db key.now sought }
    requires there { IsHashThere (visible B.blocks keyspace.old at.now) keyspace.old.bases (B.blocks keyspace.old.store) at.now.db key.now at.now.moment there }
    requires value { (value : Option (List ℕ)) × IsValue (visible B.blocks keyspace.old at.now) key.now field.now value × (number_in value ≡ Some n) }
    ensures gives { Gives B.blocks keyspace.old keyspace.new at.now (hashes.HIncrBy key.now field.now by) result }
    ensures kept { KeepsOrRefuses B.blocks B.step (one_key at.now.db key.now) keyspace.old keyspace.new result }
    ensures forms { IfOk result (λ reply. Formed B.blocks (hash_form at.now.db (visible B.blocks keyspace.old at.now) (hashes.HIncrBy key.now field.now by)) keyspace.old keyspace.new) }
{
    match n.checked_add(by) {
        None => Reply::refused(keyspace.alloc(), Refusal::Overflow),
        Some(sum) => write_number(keyspace, at, key, sought, there, field, sum),
    }
}

/// `HINCRBY key field n`: the number that is n more, where a field that isn't there counts as 0. A value that is no number and a
/// number that 64 bits with a sign don't hold are refused.
#[tactic(auto, using(crate::proofs::Looking::refused_other))]
pub fn hincrby<B: BlockStore>(
    keyspace: &mut Keyspace<B>,
    at: &Ctx,
    key: &[u8],
    field: &[u8],
    by: i64,
) -> Result<Reply, Memory>
    requires ready { Ready B.blocks keyspace.old at.now }
    ensures gives { Gives B.blocks keyspace.old keyspace.new at.now (hashes.HIncrBy key.now field.now by) result }
    ensures kept { KeepsOrRefuses B.blocks B.step (one_key at.now.db key.now) keyspace.old keyspace.new result }
    ensures forms { IfOk result (λ reply. Formed B.blocks (hash_form at.now.db (visible B.blocks keyspace.old at.now) (hashes.HIncrBy key.now field.now by)) keyspace.old keyspace.new) }
{
    let alloc = keyspace.alloc();
    let found = seek(keyspace, at, key);
    let there = match hash_sought(keyspace, at, key, found) {
        Look::Other => return Reply::refused(alloc, Refusal::WrongType),
        Look::Missing => None,
        Look::There(item) => Some(item),
    };
    match number_there(keyspace, at, key, there, field) {
        None => Reply::refused(alloc, Refusal::NotAnInteger),
        Some(n) => count_on(keyspace, at, key, found.sought, there, field, n, by),
    }
}
