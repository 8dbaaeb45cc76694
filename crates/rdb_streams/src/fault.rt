//! Faults of parts as faults of an item.

ghost use Rattle.std.specs.Prelude.{◌≡◌};

use rdb_grammar::{FileFault, ItemFault, LoadKind};

/// The fault of a part.
pub(crate) fn refused(fault: FileFault) -> ItemFault
    ensures { result ≡ ItemFault.Refused fault.kind fault.at }
{
    ItemFault::Refused {
        kind: fault.kind,
        at: fault.at,
    }
}

/// What stands at an offset breaks the shape of a stream's groups.
pub(crate) fn no_group(at: usize) -> ItemFault
    ensures { result ≡ ItemFault.Refused LoadKind.Group at }
{
    ItemFault::Refused {
        kind: LoadKind::Group,
        at: at as u64,
    }
}
