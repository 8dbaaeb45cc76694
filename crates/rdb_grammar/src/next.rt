//! One item of a file.

ghost use Rattle.std.specs.Prelude.{◌≡◌, ◌≤◌, ℕ, List, length, IfOk, IfErr};
ghost use Rattle.rdb_grammar.specs.Items.{item};
ghost use Rattle.rdb_grammar.specs.Places.{Fails};
ghost use Rattle.rdb_grammar.specs.Views.{part_said};
ghost use Rattle.rdb_grammar.specs.Returns.{IsPartAt, IsItemAt, SaysFault};

use crate::fault::{FileFault, ItemFault};
use crate::file::check_sum;
use crate::items::{Meaning, first_part};
use std::alloc::Global;

/// An item, and the offset of the byte behind it; of a key with a collection the offset of its first part, as an element,
/// which [`next_string`](crate::next_string) reads.
#[derive(Clone, Copy, Debug)]
pub struct Item<'a> {
    /// What it says.
    pub meaning: Meaning<'a>,
    /// The offset of the next item, or of the first element, in bytes from the file's start.
    pub next: usize,
}

// The item at an offset, without the checksum field behind the end.
fn bare_item(bytes: &[u8], at: usize) -> Result<Item<'_>, FileFault>
    requires { at ≤ length bytes.now }
    ensures item { IfOk result (λ x. IsPartAt bytes.now at x.next (part_said x.meaning)) }
    ensures fault { IfErr result (λ e. Fails item bytes.now at e.kind e.at) }
{
    match first_part(&bytes[at..]) {
        Ok((meaning, rest)) => Ok(Item {
            meaning,
            next: bytes.len() - rest.len(),
        }),
        Err(e) => Err(FileFault {
            kind: e.kind,
            at: (bytes.len() - e.left) as u64,
        }),
    }
}

// The fault of a part.
fn refused(fault: FileFault) -> ItemFault
    ensures { result ≡ ItemFault.Refused fault.kind fault.at }
{
    ItemFault::Refused {
        kind: fault.kind,
        at: fault.at,
    }
}

/// The item that begins at the offset `at` of a file's bytes; behind the end of the items its checksum field stands, and
/// the offset behind that is the next. Of a key with a collection its parts are left to read; whoever builds it finds a
/// member or field that stands twice, and what breaks the rules of a stream. Refused exactly by the first fault of the item up to there, or of that field; it wants no
/// memory, since the strings of an item lie in the file's bytes.
pub fn next_item<'a>(_alloc: Global, bytes: &'a [u8], at: usize) -> Result<Item<'a>, ItemFault>
    requires { at ≤ length bytes.now }
    ensures item { IfOk result (λ x. IsItemAt bytes.now at x.next (part_said x.meaning)) }
    ensures fault { IfErr result (SaysFault bytes.now at) }
{
    let item = match bare_item(bytes, at) {
        Ok(item) => item,
        Err(fault) => return Err(refused(fault)),
    };
    match item.meaning {
        Meaning::End => match check_sum(bytes, item.next) {
            Ok(next) => Ok(Item {
                meaning: Meaning::End,
                next,
            }),
            Err(fault) => Err(refused(fault)),
        },
        Meaning::Passed => Ok(item),
        Meaning::Deadline(_) => Ok(item),
        Meaning::Database(_) => Ok(item),
        Meaning::Key { .. } => Ok(item),
    }
}
