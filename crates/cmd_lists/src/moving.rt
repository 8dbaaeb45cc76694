//! Commands that move an element from an end of a list to an end of another one, or of the same one.

ghost use Rattle.std.specs.Prelude.{◌≡◌, ℕ, true, false, List, ◌∷◌, [], Option, OnOk, IfOk};
ghost use Rattle.plain_model.specs.Outcomes.{leaves};
ghost use Rattle.plain_model.specs.ListSteps.{added, without, or_none, keep_list, move_element};
ghost use Rattle.plain_model.specs.declared.list_command.ListCommand.TheVariants as lists;
ghost use Rattle.held.specs.Calls.{AllAt};
ghost use Rattle.keyspace.specs.Looks.{IsLook};
ghost use Rattle.keyspace.specs.Scopes.{one_key, two_keys};
ghost use Rattle.keyspace.specs.Forms as form;
ghost use Rattle.keyspace.specs.Forms.{AsAt, Either, HasForm, Formed, FormedList, ArePlaced, placed_between, risen_to};
ghost use Rattle.keyspace.specs.Commands.{Ready, KeepsTo, KeepsOrRefuses, visible};
ghost use Rattle.cmd_lists.specs.Found.{Gives, FoundOther};
ghost use Rattle.cmd_lists.specs.Changed.{HasList, IsBefore, ListChanged};
ghost use Rattle.cmd_lists.specs.Moved.{HasNoOther, HasNone, IsFirst, Takes, Turns};

use crate::changing::{change_list, list_sought};
use crate::edits::ListEdit;
use crate::look::list_at;
use crate::popping::{first_from, take_off};
use crate::pushing::{Push, push_one};
use blocks::BlockStore;
use keyspace::{Keyspace, Look, seek};
use plain_model::{Bytes, Ctx, ListEnd, Memory, Refusal, Reply, Word};
use quicklist::Quick;

/// An element to be taken off an end of a list.
#[derive(Drop)]
pub struct Take {
    pub end: ListEnd,
}

impl ListEdit for Take {
    ghost takes = { λ take list. Unit {0} };

    ghost makes = { λ first last list from now form. Takes first.end list from now form };

    fn edit_list<B: BlockStore>(&mut self, list: &mut Quick, store: &mut B) -> Result<(), Memory> {
        take_off(list, store, self.end, list.len().min(1))
    }
}

/// The first element that is met from an end of a list, to be taken off and put at an end.
#[derive(Drop)]
pub struct Turn<'a> {
    pub end: ListEnd,
    pub other: ListEnd,
    pub element: &'a Bytes,
}

impl<'a> ListEdit for Turn<'a> {
    ghost takes = { λ turn list. Unit {0} };

    ghost makes = { λ first last list from now form. Turns first.end first.other first.element.now list from now form };

    fn edit_list<B: BlockStore>(&mut self, list: &mut Quick, store: &mut B) -> Result<(), Memory> {
        take_off(list, store, self.end, list.len().min(1))?;
        push_one(list, store, self.other, self.element.as_slice())
    }
}

// The first element that is met from an end of the list at a key.
fn first_at<B: BlockStore>(
    keyspace: &Keyspace<B>,
    at: &Ctx,
    key: &[u8],
    end: ListEnd,
) -> Result<Look<Bytes>, Memory>
    requires ready { Ready B.blocks keyspace.now at.now }
    ensures { IfOk result
        (λ found. IsLook (HasNone (visible B.blocks keyspace.now at.now) key.now) (FoundOther (visible B.blocks keyspace.now at.now) key.now)
        (λ element. IsFirst (visible B.blocks keyspace.now at.now) key.now end element) found) }
{
    match list_at(keyspace, at, key) {
        Look::Missing => Ok(Look::Missing),
        Look::Other => Ok(Look::Other),
        Look::There(list) => {
            match first_from(keyspace.alloc(), &keyspace.store, list, end)? {
                None => Ok(Look::Missing),
                Some(element) => Ok(Look::There(element)),
            }
        }
    }
}

// Whether a value of another type than a list stands at a key.
fn is_other<B: BlockStore>(keyspace: &Keyspace<B>, at: &Ctx, key: &[u8]) -> bool
    requires ready { Ready B.blocks keyspace.now at.now }
    ensures other { result ≡ true → FoundOther (visible B.blocks keyspace.now at.now) key.now }
    ensures no_other { result ≡ false → HasNoOther (visible B.blocks keyspace.now at.now) key.now }
{
    match list_at(keyspace, at, key) {
        Look::Missing => false,
        Look::Other => true,
        Look::There(_) => false,
    }
}

// Changes the list at a key, or a new one where nothing stands there.
fn change_at<E: ListEdit, B: BlockStore>(
    keyspace: &mut Keyspace<B>,
    at: &Ctx,
    key: &[u8],
    edit: E,
) -> Result<E, Memory>
    requires ready { Ready B.blocks keyspace.old at.now }
    requires no_other { HasNoOther (visible B.blocks keyspace.old at.now) key.now }
    requires takes { (before : Option (List (List ℕ))) → IsBefore (visible B.blocks keyspace.old at.now) key.now before → E.takes edit (or_none before) }
    ensures changed { IfOk result (λ last. ListChanged (E.makes edit last) keep_list B.blocks keyspace.old keyspace.new at.now key.now) }
    ensures held { KeepsTo B.blocks B.step (one_key at.now.db key.now) keyspace.old keyspace.new }
{
    let found = seek(keyspace, at, key);
    let there = match list_sought(keyspace, at, key, found) {
        Look::Other => unreachable!(),
        Look::Missing => None,
        Look::There(item) => Some(item),
    };
    change_list(keyspace, at, key, found.sought, there, edit)
}

// Takes the first element that is met from an end off the list at a key.
fn take_first<B: BlockStore>(
    keyspace: &mut Keyspace<B>,
    at: &Ctx,
    key: &[u8],
    end: ListEnd,
) -> Result<(), Memory>
    requires ready { Ready B.blocks keyspace.old at.now }
    requires there { (list : List (List ℕ)) × HasList (visible B.blocks keyspace.old at.now) key.now list }
    ensures world { OnOk result
        (visible B.blocks keyspace.new at.now ≡ keep_list (visible B.blocks keyspace.old at.now) key.now (without end 1 (form.list_at (visible B.blocks keyspace.old at.now) key.now))) }
    ensures held { KeepsTo B.blocks B.step (one_key at.now.db key.now) keyspace.old keyspace.new }
    ensures forms { OnOk result (Formed B.blocks (AsAt at.now.db key.now) keyspace.old keyspace.new) }
    ensures placed { OnOk result
        (AllAt (HasForm (AsAt at.now.db key.now) keyspace.old.bases (B.blocks keyspace.old.store)) keyspace.new.bases (B.blocks keyspace.new.store) at.now.db key.now) }
{
    let _ = change_at(keyspace, at, key, Take { end })?;
    Ok(())
}

// Puts an element at an end of the list at a key, or of a new one.
fn put_one<B: BlockStore>(
    keyspace: &mut Keyspace<B>,
    at: &Ctx,
    key: &[u8],
    end: ListEnd,
    element: &Bytes,
) -> Result<(), Memory>
    requires ready { Ready B.blocks keyspace.old at.now }
    requires no_other { HasNoOther (visible B.blocks keyspace.old at.now) key.now }
    ensures world { OnOk result
        (visible B.blocks keyspace.new at.now ≡ keep_list (visible B.blocks keyspace.old at.now) key.now
        (added end (form.list_at (visible B.blocks keyspace.old at.now) key.now) (element.now ∷ []))) }
    ensures held { KeepsTo B.blocks B.step (one_key at.now.db key.now) keyspace.old keyspace.new }
    ensures forms { OnOk result
        (Formed B.blocks (risen_to at.now.db (visible B.blocks keyspace.old at.now) key.now (added end (form.list_at (visible B.blocks keyspace.old at.now) key.now) (element.now ∷ [])))
        keyspace.old keyspace.new) }
    ensures placed { OnOk result
        (AllAt
        (HasForm (risen_to at.now.db (visible B.blocks keyspace.old at.now) key.now (added end (form.list_at (visible B.blocks keyspace.old at.now) key.now) (element.now ∷ [])))
        keyspace.old.bases (B.blocks keyspace.old.store)) keyspace.new.bases (B.blocks keyspace.new.store) at.now.db key.now) }
{
    let words = [Word::new(element.as_slice())];
    let push = Push {
        end,
        words: &words,
        length: 0,
    };
    let _ = change_at(keyspace, at, key, push)?;
    Ok(())
}

// Moves the first element that is met from an end of the list at a key to an end of it.
fn turn_list<B: BlockStore>(
    keyspace: &mut Keyspace<B>,
    at: &Ctx,
    key: &[u8],
    end: ListEnd,
    other: ListEnd,
    element: &Bytes,
) -> Result<(), Memory>
    requires ready { Ready B.blocks keyspace.old at.now }
    requires first { IsFirst (visible B.blocks keyspace.old at.now) key.now end element.now }
    ensures world { OnOk result
        (visible B.blocks keyspace.new at.now ≡ keep_list (visible B.blocks keyspace.old at.now) key.now
        (added other (without end 1 (form.list_at (visible B.blocks keyspace.old at.now) key.now)) (element.now ∷ []))) }
    ensures held { KeepsTo B.blocks B.step (one_key at.now.db key.now) keyspace.old keyspace.new }
    ensures forms { OnOk result
        (Formed B.blocks
        (risen_to at.now.db (visible B.blocks keyspace.old at.now) key.now (added other (without end 1 (form.list_at (visible B.blocks keyspace.old at.now) key.now)) (element.now ∷ [])))
        keyspace.old keyspace.new) }
    ensures placed { OnOk result
        (AllAt
        (HasForm
        (risen_to at.now.db (visible B.blocks keyspace.old at.now) key.now (added other (without end 1 (form.list_at (visible B.blocks keyspace.old at.now) key.now)) (element.now ∷ [])))
        keyspace.old.bases (B.blocks keyspace.old.store)) keyspace.new.bases (B.blocks keyspace.new.store) at.now.db key.now) }
{
    let turn = Turn {
        end,
        other,
        element,
    };
    let _ = change_at(keyspace, at, key, turn)?;
    Ok(())
}

// Moves the first element that is met from an end of a list to an end of another one.
fn pass_on<B: BlockStore>(
    keyspace: &mut Keyspace<B>,
    at: &Ctx,
    from: &[u8],
    to: &[u8],
    end: ListEnd,
    other: ListEnd,
    element: &Bytes,
) -> Result<(), Memory>
    requires ready { Ready B.blocks keyspace.old at.now }
    requires first { IsFirst (visible B.blocks keyspace.old at.now) from.now end element.now }
    requires no_other { HasNoOther (visible B.blocks keyspace.old at.now) to.now }
    requires apart { from.now ≡ to.now → ⊥ }
    ensures world { OnOk result
        (visible B.blocks keyspace.new at.now ≡ keep_list
        (keep_list (visible B.blocks keyspace.old at.now) from.now (without end 1 (form.list_at (visible B.blocks keyspace.old at.now) from.now))) to.now
        (added other (form.list_at (visible B.blocks keyspace.old at.now) to.now) (element.now ∷ []))) }
    ensures held { KeepsTo B.blocks B.step (two_keys at.now.db from.now at.now.db to.now) keyspace.old keyspace.new }
    ensures forms { OnOk result
        (Formed B.blocks
        (Either (AsAt at.now.db from.now)
        (risen_to at.now.db (visible B.blocks keyspace.old at.now) to.now (added other (form.list_at (visible B.blocks keyspace.old at.now) to.now) (element.now ∷ [])))) keyspace.old
        keyspace.new) }
    ensures placed { OnOk result
        (ArePlaced
        (placed_between at.now.db from.now to.now
        (Either (AsAt at.now.db from.now)
        (risen_to at.now.db (visible B.blocks keyspace.old at.now) to.now (added other (form.list_at (visible B.blocks keyspace.old at.now) to.now) (element.now ∷ [])))))
        keyspace.old.bases keyspace.new.bases (B.blocks keyspace.old.store) (B.blocks keyspace.new.store)) }
{
    take_first(keyspace, at, from, end)?;
    put_one(keyspace, at, to, other, element)
}

// Moves the first element that is met from an end of a list to an end of it.
fn move_same<B: BlockStore>(
    keyspace: &mut Keyspace<B>,
    at: &Ctx,
    from: &[u8],
    to: &[u8],
    end: ListEnd,
    other: ListEnd,
    element: Bytes,
) -> Result<Reply, Memory>
    requires ready { Ready B.blocks keyspace.old at.now }
    requires first { IsFirst (visible B.blocks keyspace.old at.now) from.now end element }
    requires same { from.now ≡ to.now }
    ensures gives { IfOk result (λ reply. move_element (visible B.blocks keyspace.old at.now) from.now to.now end other ≡ leaves reply (visible B.blocks keyspace.new at.now)) }
    ensures kept { KeepsOrRefuses B.blocks B.step (two_keys at.now.db from.now at.now.db to.now) keyspace.old keyspace.new result }
    ensures forms { IfOk result (λ reply. FormedList B.blocks at.now.db (visible B.blocks keyspace.old at.now) (lists.LMove from.now to.now end other) reply keyspace.old keyspace.new) }
{
    // it is the same key
    let _ = to;
    let alloc = keyspace.alloc();
    turn_list(keyspace, at, from, end, other, &element)?;
    Reply::bulk(alloc, element)
}

// Moves the first element that is met from an end of a list to an end of another one, which may hold another type.
fn move_apart<B: BlockStore>(
    keyspace: &mut Keyspace<B>,
    at: &Ctx,
    from: &[u8],
    to: &[u8],
    end: ListEnd,
    other: ListEnd,
    element: Bytes,
) -> Result<Reply, Memory>
    requires ready { Ready B.blocks keyspace.old at.now }
    requires first { IsFirst (visible B.blocks keyspace.old at.now) from.now end element }
    requires apart { from.now ≡ to.now → ⊥ }
    ensures gives { IfOk result (λ reply. move_element (visible B.blocks keyspace.old at.now) from.now to.now end other ≡ leaves reply (visible B.blocks keyspace.new at.now)) }
    ensures kept { KeepsOrRefuses B.blocks B.step (two_keys at.now.db from.now at.now.db to.now) keyspace.old keyspace.new result }
    ensures forms { IfOk result (λ reply. FormedList B.blocks at.now.db (visible B.blocks keyspace.old at.now) (lists.LMove from.now to.now end other) reply keyspace.old keyspace.new) }
{
    let alloc = keyspace.alloc();
    if is_other(keyspace, at, to) {
        return Reply::refused(alloc, Refusal::WrongType);
    }
    pass_on(keyspace, at, from, to, end, other, &element)?;
    Reply::bulk(alloc, element)
}

// An element taken off one list and put at an end of another one, or of the same one: the element, or null.
fn move_between<B: BlockStore>(
    keyspace: &mut Keyspace<B>,
    at: &Ctx,
    from: &[u8],
    to: &[u8],
    end: ListEnd,
    other: ListEnd,
) -> Result<Reply, Memory>
    requires ready { Ready B.blocks keyspace.old at.now }
    ensures gives { IfOk result (λ reply. move_element (visible B.blocks keyspace.old at.now) from.now to.now end other ≡ leaves reply (visible B.blocks keyspace.new at.now)) }
    ensures kept { KeepsOrRefuses B.blocks B.step (two_keys at.now.db from.now at.now.db to.now) keyspace.old keyspace.new result }
    ensures forms { IfOk result (λ reply. FormedList B.blocks at.now.db (visible B.blocks keyspace.old at.now) (lists.LMove from.now to.now end other) reply keyspace.old keyspace.new) }
{
    let alloc = keyspace.alloc();
    match first_at(keyspace, at, from, end)? {
        Look::Other => Reply::refused(alloc, Refusal::WrongType),
        Look::Missing => Reply::null(alloc),
        Look::There(element) => {
            if from == to {
                return move_same(keyspace, at, from, to, end, other, element);
            }
            move_apart(keyspace, at, from, to, end, other, element)
        }
    }
}

/// `LMOVE from to LEFT|RIGHT LEFT|RIGHT`: the element that was taken off an end of one list and put at an end of the
/// other, or null. Both keys may be the same; a value of another type at either is refused.
pub fn lmove<B: BlockStore>(
    keyspace: &mut Keyspace<B>,
    at: &Ctx,
    from: &[u8],
    to: &[u8],
    end: ListEnd,
    other: ListEnd,
) -> Result<Reply, Memory>
    requires ready { Ready B.blocks keyspace.old at.now }
    ensures gives { Gives B.blocks keyspace.old keyspace.new at.now (lists.LMove from.now to.now end other) result }
    ensures kept { KeepsOrRefuses B.blocks B.step (two_keys at.now.db from.now at.now.db to.now) keyspace.old keyspace.new result }
    ensures forms { IfOk result (λ reply. FormedList B.blocks at.now.db (visible B.blocks keyspace.old at.now) (lists.LMove from.now to.now end other) reply keyspace.old keyspace.new) }
{
    move_between(keyspace, at, from, to, end, other)
}

/// `RPOPLPUSH from to`: the last element of one list, which was put before the other, or null.
pub fn rpoplpush<B: BlockStore>(
    keyspace: &mut Keyspace<B>,
    at: &Ctx,
    from: &[u8],
    to: &[u8],
) -> Result<Reply, Memory>
    requires ready { Ready B.blocks keyspace.old at.now }
    ensures gives { Gives B.blocks keyspace.old keyspace.new at.now (lists.RPopLPush from.now to.now) result }
    ensures kept { KeepsOrRefuses B.blocks B.step (two_keys at.now.db from.now at.now.db to.now) keyspace.old keyspace.new result }
    ensures forms { IfOk result (λ reply. FormedList B.blocks at.now.db (visible B.blocks keyspace.old at.now) (lists.RPopLPush from.now to.now) reply keyspace.old keyspace.new) }
{
    move_between(keyspace, at, from, to, ListEnd::Tail, ListEnd::Head)
}
