//! The command that moves a member from one set to another.

ghost use Rattle.std.specs.Prelude.{◌≡◌, [], ◌∷◌, pos, OnOk, IfOk};
ghost use Rattle.plain_model.specs.SetSteps.{set_outcome};
ghost use Rattle.plain_model.specs.ListSteps.{tells_number};
ghost use Rattle.plain_model.specs.declared.set_command.SetCommand.TheVariants as sets;
ghost use Rattle.keyspace.specs.Scopes.{two_keys};
ghost use Rattle.keyspace.specs.Insides.{SettlesAt};
ghost use Rattle.keyspace.specs.Forms.{Formed, FormedSet, ArePlaced, placed_between, set_passed};
ghost use Rattle.keyspace.specs.Commands.{Ready, KeepsTo, KeepsOrRefuses, visible};
ghost use Rattle.cmd_sets.specs.Found.{Gives};
ghost use Rattle.cmd_sets.specs.Moves.{IsMove, IsPlan, Takes};

use crate::adding::Add;
use crate::changing::change_set;
use crate::look::set_at;
use crate::removing::Remove;
use blocks::BlockStore;
use keyspace::{Keyspace, Look, count_reply, seek};
use plain_model::{Ctx, Memory, Refusal, Reply, Word};

// What `SMOVE` does.
#[derive(Clone, Copy, Debug)]
enum Plan {
    // a value of another type stands at one of the keys
    Refuse,
    // nothing changes, and this is answered
    Tell(usize),
    // the member moves
    Move,
}

// Whether a set can stand at a key: one does, or nothing.
fn may_take<B: BlockStore>(keyspace: &Keyspace<B>, at: &Ctx, key: &[u8]) -> bool
    requires ready { Ready B.blocks keyspace.now at.now }
    ensures { Takes (visible B.blocks keyspace.now at.now) key.now result }
{
    match set_at(keyspace, at, key) {
        Look::Missing => true,
        Look::Other => false,
        Look::There(_) => true,
    }
}

// What is to be done, before anything changes.
fn plan_of<B: BlockStore>(
    keyspace: &Keyspace<B>,
    at: &Ctx,
    from: &[u8],
    to: &[u8],
    member: &[u8],
) -> Plan
    requires ready { Ready B.blocks keyspace.now at.now }
    ensures { IsPlan (visible B.blocks keyspace.now at.now) from.now to.now member.now result }
{
    match set_at(keyspace, at, from) {
        Look::Missing => Plan::Tell(0),
        Look::Other => Plan::Refuse,
        Look::There(set) => {
            if !may_take(keyspace, at, to) {
                return Plan::Refuse;
            }
            if !set.has(&keyspace.store, member) {
                return Plan::Tell(0);
            }
            if from == to {
                return Plan::Tell(1);
            }
            Plan::Move
        }
    }
}

// Takes the member out of the one set, and puts it into the other.
fn move_member<B: BlockStore>(
    keyspace: &mut Keyspace<B>,
    at: &Ctx,
    from: &[u8],
    to: &[u8],
    member: &[u8],
) -> Result<(), Memory>
    requires ready { Ready B.blocks keyspace.old at.now }
    requires moves { IsMove (visible B.blocks keyspace.old at.now) from.now to.now member.now }
    ensures moved { OnOk result (set_outcome (visible B.blocks keyspace.old at.now) (sets.SMove from.now to.now member.now) ≡ tells_number (pos 1) (visible B.blocks keyspace.new at.now)) }
    ensures held { KeepsTo B.blocks B.step (two_keys at.now.db from.now at.now.db to.now) keyspace.old keyspace.new }
    ensures settles { OnOk result (SettlesAt B.blocks keyspace.old keyspace.new at.now from.now) }
    ensures forms { OnOk result (Formed B.blocks (set_passed at.now.db (visible B.blocks keyspace.old at.now) from.now to.now member.now) keyspace.old keyspace.new) }
    ensures placed { OnOk result
        (ArePlaced (placed_between at.now.db from.now to.now (set_passed at.now.db (visible B.blocks keyspace.old at.now) from.now to.now member.now)) keyspace.old.bases keyspace.new.bases
        (B.blocks keyspace.old.store) (B.blocks keyspace.new.store)) }
{
    let words = [Word::new(member)];
    let found = seek(keyspace, at, from);
    let taken = Remove {
        words: &words,
        removed: 0,
    };
    let _ = change_set(keyspace, at, from, found.sought, found.there, taken)?;
    let found = seek(keyspace, at, to);
    let put = Add {
        words: &words,
        added: 0,
    };
    let _ = change_set(keyspace, at, to, found.sought, found.there, put)?;
    Ok(())
}

/// `SMOVE from to member`: 1 where the member goes from the one set to the other, or where both are the same set and it is there; 0
/// where it isn't in the first set. A key goes with its last member.
pub fn smove<B: BlockStore>(
    keyspace: &mut Keyspace<B>,
    at: &Ctx,
    from: &[u8],
    to: &[u8],
    member: &[u8],
) -> Result<Reply, Memory>
    requires ready { Ready B.blocks keyspace.old at.now }
    ensures gives { Gives B.blocks keyspace.old keyspace.new at.now (sets.SMove from.now to.now member.now) result }
    ensures kept { KeepsOrRefuses B.blocks B.step (two_keys at.now.db from.now at.now.db to.now) keyspace.old keyspace.new result }
    ensures settles { IfOk result (λ reply. SettlesAt B.blocks keyspace.old keyspace.new at.now from.now) }
    ensures forms { IfOk result (λ reply. FormedSet B.blocks at.now.db (visible B.blocks keyspace.old at.now) (sets.SMove from.now to.now member.now) reply keyspace.old keyspace.new) }
{
    let alloc = keyspace.alloc();
    match plan_of(keyspace, at, from, to, member) {
        Plan::Refuse => Reply::refused(alloc, Refusal::WrongType),
        Plan::Tell(number) => count_reply(alloc, number),
        Plan::Move => {
            move_member(keyspace, at, from, to, member)?;
            count_reply(alloc, 1)
        }
    }
}
