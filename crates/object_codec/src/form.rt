// The forms of collections.

ghost use Rattle.std.specs.Prelude.{◌≡◌, ◌≤◌, ◌↔◌, IsTrue};
ghost use Rattle.object_codec.specs.Forms.{IsLeast, FitsSet, FitsHash, FitsZset, FitsList, form_text};

use crate::limits::Limits;

/// How a collection is kept.
#[derive(Clone, Copy, Debug, PartialEq, Eq)]
pub enum Form {
    /// A sorted array of numbers: a set.
    Intset,
    /// One listpack: a set, a hash, a sorted set or a list.
    Listpack,
    /// A dictionary: a set or a hash.
    Hashtable,
    /// A dictionary and an ordered list of scores: a sorted set.
    Skiplist,
    /// A list of listpacks: a list.
    Quicklist,
    /// Nodes by their ids: a stream.
    Stream,
}

impl Form {
    /// The name that OBJECT ENCODING answers.
    pub fn text(self) -> &'static str
        ensures { result.now ≡ form_text self }
    {
        match self {
            Form::Intset => "intset",
            Form::Listpack => "listpack",
            Form::Hashtable => "hashtable",
            Form::Skiplist => "skiplist",
            Form::Quicklist => "quicklist",
            Form::Stream => "stream",
        }
    }
}

// The number of bytes up to which all elements of a list are kept in one listpack.
const LIST_PACK_BYTES: u64 = 8192;

// Whether so many elements, the longest of so many bytes, are kept in one listpack.
fn is_packed(count: usize, longest: usize, entries: u32, value: u32) -> bool
    ensures { IsTrue result ↔ ((count ≤ entries) × (longest ≤ value)) }
{
    count <= entries as usize && longest <= value as usize
}

/// The form of a new set of so many members, of which the longest has so many bytes. `numbers` tells whether all of them are
/// canonical texts of numbers of 64 bits with a sign.
pub fn set_form(limits: &Limits, numbers: bool, count: usize, longest: usize) -> Form
    ensures { IsLeast (FitsSet limits.now numbers count longest) result }
{
    if numbers && count <= limits.set_intset as usize {
        Form::Intset
    } else if is_packed(count, longest, limits.set_entries, limits.set_value) {
        Form::Listpack
    } else {
        Form::Hashtable
    }
}

/// The form of a new hash of so many fields, where the longest of its fields and values has so many bytes.
pub fn hash_form(limits: &Limits, count: usize, longest: usize) -> Form
    ensures { IsLeast (FitsHash limits.now count longest) result }
{
    if is_packed(count, longest, limits.hash_entries, limits.hash_value) {
        Form::Listpack
    } else {
        Form::Hashtable
    }
}

/// The form of a new sorted set of so many members, of which the longest has so many bytes.
pub fn zset_form(limits: &Limits, count: usize, longest: usize) -> Form
    ensures { IsLeast (FitsZset limits.now count longest) result }
{
    if is_packed(count, longest, limits.zset_entries, limits.zset_value) {
        Form::Listpack
    } else {
        Form::Skiplist
    }
}

/// The form of a new list, where one listpack of all its elements has so many bytes.
pub fn list_form(pack_len: u64) -> Form
    ensures { IsLeast (FitsList pack_len) result }
{
    if pack_len <= LIST_PACK_BYTES {
        Form::Listpack
    } else {
        Form::Quicklist
    }
}
