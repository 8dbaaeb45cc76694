//! Which ids are pending for each consumer.

ghost use Rattle.std.specs.Prelude.{◌≡◌, ℕ, [], ◌∷◌, true, false, not, length, IfOk, OnOk, OnErr, slice_get};
ghost use Rattle.std.specs.Option.{option_map};
ghost use Rattle.std.specs.FinMap.{empty, insert};
ghost use Rattle.stream_groups.specs.Index.{counted, held, holds, ids_above, Marks, HoldSame, Leaves, NoneIsEmpty};
ghost use Rattle.stream_groups.specs.Kept.{pending_of, logged};
ghost use Rattle.stream_groups.specs.Waits.{owner_pairs};

use crate::consumers::is_named;
use crate::entries::Handed;
use crate::id_set::IdSet;
use crate::waiting::Owner;
use crate::{Bytes, Id, Memory};
use std::alloc::Global;
use std::collections::BTreeMap;
use std::marker::Model;

// The ids of each consumer that has some.
#[derive(Drop)]
pub(crate) struct Index {
    alloc: Global,
    sets: BTreeMap<Vec<u8>, IdSet>,
}

impl Model for Index {
    ghost use Rattle.stream_groups.specs.Index.{Index as Value_};
    ghost use Rattle.stream_groups.specs.GroupsCode.{index_code};

    ghost Value = { Value_ };

    ghost coded = { index_code };

    ghost use Rattle.stream_groups.specs.Index.{NoneIsEmpty};
    ghost use Rattle.stream_groups.specs.Kept.{named, NamesRise};

    ghost view = { λ i. named (λ ids. ids) i.sets.entries };

    ghost invariant = { λ i. NamesRise i.sets.entries × NoneIsEmpty (named (λ ids. ids) i.sets.entries) };
}

impl Clone for Index {
    ghost use Rattle.std.specs.Prelude.{◌≡◌};

    ghost is_clone = { λ index copy. copy ≡ index };

    fn clone(&self) -> Result<Index, Memory> {
        Ok(Index {
            alloc: self.alloc,
            sets: self.sets.clone()?,
        })
    }
}

impl Index {
    // No id of anyone.
    pub(crate) fn new(alloc: Global) -> Index
        ensures { result ≡ empty }
    {
        Index {
            alloc,
            sets: BTreeMap::new(alloc),
        }
    }

    // Adds an id to those of a consumer. `false` comes exactly where it is there. Memory leaves all as it was.
    pub(crate) fn add(&mut self, name: &[u8], id: Id) -> Result<bool, Memory>
        ensures fresh { IfOk result (λ fresh. fresh ≡ not (holds self.old name.now id)) }
        ensures ok { OnOk result (Marks true name.now (id ∷ []) self.old self.new) }
        ensures err { OnErr result (self.new ≡ self.old) }
    {
        match self.sets.get_mut(name) {
            None => {
                self.start(name, id)?;
                Ok(true)
            }
            Some(ids) => match ids.add(id) {
                Ok(fresh) => Ok(fresh),
                Err(memory) => Err(memory),
            },
        }
    }

    // Gives a consumer this id alone. Memory leaves all as it was.
    fn start(&mut self, name: &[u8], id: Id) -> Result<(), Memory>
        ensures ok { OnOk result (self.new ≡ insert self.old name.now (insert empty id tt)) }
        ensures err { OnErr result (self.new ≡ self.old) }
    {
        let mut ids = IdSet::new(self.alloc);
        ids.add(id)?;
        let key = Vec::from_slice(self.alloc, name)?;
        self.sets.insert(key, ids)?;
        Ok(())
    }

    // Takes an id from those of a consumer. A consumer with no id left is not kept.
    pub(crate) fn take(&mut self, name: &[u8], id: Id)
        ensures { Marks false name.now (id ∷ []) self.old self.new }
    {
        let emptied = match self.sets.get_mut(name) {
            None => false,
            Some(ids) => {
                ids.take(id);
                ids.len() == 0
            }
        };
        if emptied {
            drop(self.sets.remove(name));
        }
    }

    // Adds ids to those of a consumer. Memory leaves each consumer the ids that it had.
    pub(crate) fn add_all(&mut self, name: &[u8], ids: &[Id]) -> Result<(), Memory>
        ensures ok { OnOk result (Marks true name.now ids.now self.old self.new) }
        ensures err { OnErr result (HoldSame self.old self.new) }
    {
        let mut fresh = Vec::with_capacity(self.alloc, ids.len())?;
        for id in ids {
            match self.add(name, *id) {
                Ok(is_new) => {
                    if is_new {
                        fresh.push_reserved(*id);
                    }
                }
                Err(memory) => {
                    self.take_all(name, &fresh);
                    return Err(memory);
                }
            }
        }
        Ok(())
    }

    // Takes ids from those of a consumer.
    fn take_all(&mut self, name: &[u8], ids: &[Id])
        ensures { Marks false name.now ids.now self.old self.new }
    {
        for id in ids {
            self.take(name, *id);
        }
    }

    // An id that a consumer has now leaves the one that had it before.
    pub(crate) fn leave(&mut self, id: Id, was: &Option<Handed>, name: &[u8])
        ensures { Leaves name.now (id ∷ []) (option_map pending_of was.now ∷ []) self.old self.new }
    {
        match was {
            None => {}
            Some(former) => {
                if !is_named(&former.consumer, name) {
                    self.take(former.consumer.as_slice(), id);
                }
            }
        }
    }

    // The ids that a consumer has now leave those that had them before.
    pub(crate) fn leave_all(&mut self, ids: &[Id], log: &[Option<Handed>], name: &[u8])
        requires { length log.now ≡ length ids.now }
        ensures { Leaves name.now ids.now (logged log.now) self.old self.new }
    {
        for at in 0..ids.len() {
            self.leave(ids[at], &log[at], name);
        }
    }

    // The first id of a consumer above another one, or of all.
    pub(crate) fn after(&self, name: &[u8], above: Option<Id>) -> Option<Id>
        ensures { result ≡ slice_get (ids_above above (held self.now name.now)) 0 }
    {
        match self.sets.get(name) {
            None => None,
            Some(ids) => ids.after(above),
        }
    }

    // How many ids a consumer has.
    pub(crate) fn len(&self, name: &[u8]) -> u64
        ensures { result ≡ length (held self.now name.now) }
    {
        match self.sets.get(name) {
            None => 0,
            Some(ids) => ids.len(),
        }
    }

    // The consumers by rising bytes of their names, each with how many ids it has.
    pub(crate) fn owners(&self) -> Result<Vec<Owner>, Memory>
        ensures counted { IfOk result (λ owners. owner_pairs owners.items ≡ counted self.now) }
        ensures some { NoneIsEmpty self.now }
    {
        let mut owners = Vec::new(self.alloc);
        let mut rest = self.sets.iter();
        while let Some((name, ids)) = rest.next() {
            owners.push(Owner {
                name: Bytes::new(self.alloc, name)?,
                count: ids.len(),
            })?;
        }
        Ok(owners)
    }
}
