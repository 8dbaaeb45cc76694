//! The consumers of a group.

ghost use Rattle.std.specs.Prelude.{◌≡◌, ◌<◌, ℕ, not, is_some, IfOk, IfErr, IfSome, OnOk, OnErr, Some, slice_get, length};
ghost use Rattle.std.specs.Option.{option_copied, option_map};
ghost use Rattle.std.specs.FinMap.{empty, contains_key, insert, remove, len, keys};
ghost use Rattle.stream_groups.specs.Consumers.{bytes_of, IsAt, IsGap, Rise};
ghost use Rattle.stream_groups.specs.Groups.{name_cmp};
ghost use Rattle.std.specs.Ordering.{eq_by_cmp};

use crate::Memory;
use std::alloc::Global;
use std::cmp::Ordering;
use std::marker::Model;
use std::rc::Rc;

/// A consumer's name, which its pending entries share.
pub(crate) type Name = Rc<Vec<u8>>;

// The consumers' names, by rising bytes. A name is found by a binary search, and a new one shifts the references to those
// after it.
#[derive(Drop)]
pub(crate) struct Consumers {
    names: Vec<Name>,
}

impl Model for Consumers {
    ghost use Rattle.stream_groups.specs.Groups.{Names};
    ghost use Rattle.stream_groups.specs.GroupsCode.{names_code};

    ghost Value = { Names };

    ghost coded = { names_code };

    ghost use Rattle.stream_groups.specs.Consumers.{names_of, Rise};

    ghost view = { λ c. names_of c.names.items };

    ghost invariant = { λ c. Rise c.names.items };
}

impl Clone for Consumers {
    ghost use Rattle.std.specs.Prelude.{◌≡◌};

    ghost is_clone = { λ names copy. copy ≡ names };

    fn clone(&self) -> Result<Consumers, Memory> {
        Ok(Consumers {
            names: self.names.clone()?,
        })
    }
}

impl Consumers {
    // No consumer.
    pub(crate) fn new(alloc: Global) -> Consumers
        ensures { result ≡ empty }
    {
        Consumers {
            names: Vec::new(alloc),
        }
    }

    // Whether a consumer has this name.
    pub(crate) fn contains(&self, name: &[u8]) -> bool
        ensures { result ≡ contains_key self.now name.now }
    {
        match search(&self.names, name) {
            Ok(_) => true,
            Err(_) => false,
        }
    }

    // The name of a consumer, as its pending entries share it.
    pub(crate) fn get(&self, name: &[u8]) -> Option<&Name>
        ensures known { is_some result ≡ contains_key self.now name.now }
        ensures same { IfSome result (λ known. known.now.value.items ≡ name.now) }
    {
        match search(&self.names, name) {
            Ok(at) => Some(&self.names[at]),
            Err(_) => None,
        }
    }

    // How many consumers have a lower name than this consumer.
    pub(crate) fn rank(&self, name: &[u8]) -> Option<usize>
        ensures known { is_some result ≡ contains_key self.now name.now }
        ensures same { IfSome result (λ at. slice_get (keys self.now) at ≡ Some name.now) }
    {
        match search(&self.names, name) {
            Ok(at) => Some(at),
            Err(_) => None,
        }
    }

    // How many names there are.
    pub(crate) fn len(&self) -> usize
        ensures { result ≡ len self.now }
    {
        self.names.len()
    }

    // The name at a place, by rising bytes. None comes exactly past the last.
    pub(crate) fn at(&self, index: usize) -> Option<&[u8]>
        ensures { option_copied result ≡ slice_get (keys self.now) index }
    {
        match self.names.get(index) {
            Some(name) => Some(name.as_slice()),
            None => None,
        }
    }

    // Adds a name where it is new, and answers it. Memory leaves all as it was.
    pub(crate) fn add(&mut self, alloc: Global, name: &[u8]) -> Result<Name, Memory>
        ensures ok { OnOk result (self.new ≡ insert self.old name.now tt) }
        ensures same { IfOk result (λ known. known.value.items ≡ name.now) }
        ensures err { OnErr result (self.new ≡ self.old) }
    {
        match search(&self.names, name) {
            Ok(at) => Ok(self.names[at].clone()?),
            Err(at) => {
                let known = Rc::new(alloc, Vec::from_slice(alloc, name)?)?;
                self.names.insert(at, known.clone()?)?;
                Ok(known)
            }
        }
    }

    // Takes a name out.
    pub(crate) fn drop_name(&mut self, name: &[u8])
        ensures { self.new ≡ remove self.old name.now }
    {
        match search(&self.names, name) {
            Ok(at) => drop(self.names.remove(at)),
            Err(_) => {}
        }
    }
}

// Where the name is among names that rise, or where it would go.
fn search(names: &[Name], name: &[u8]) -> Result<usize, usize>
    requires { Rise names.now }
    ensures found { IfOk result (IsAt names.now name.now) }
    ensures absent { IfErr result (IsGap names.now name.now) }
{
    names.binary_search_by(|known| compare(known, name))
}

// How a consumer's name stands to another name.
fn compare(known: &Name, name: &[u8]) -> Ordering
    ensures { result ≡ name_cmp (bytes_of known.now) name.now }
{
    known.as_slice().cmp(name)
}

// Whether a consumer has this name.
pub(crate) fn is_named(known: &Name, name: &[u8]) -> bool
    ensures { result ≡ eq_by_cmp name_cmp (bytes_of known.now) name.now }
{
    match compare(known, name) {
        Ordering::Equal => true,
        _ => false,
    }
}
