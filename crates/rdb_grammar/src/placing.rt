//! What is read from an offset on, placed in a file's bytes.

ghost use Rattle.std.specs.Prelude.{◌≡◌, ◌-◌, ◌≤◌, length, Ok, Err, IfOk, IfErr};

use crate::fault::{FileFault, Refused};

/// What was read and the offset of what is left behind it, or the fault at the offset of its byte.
pub(crate) fn placed<T>(
    bytes: &[u8],
    read: Result<(T, &[u8]), Refused>,
) -> Result<(T, usize), FileFault>
    requires rest { IfOk read (λ x. length x.1.now ≤ length bytes.now) }
    requires left { IfErr read (λ e. e.left ≤ length bytes.now) }
    ensures ok { IfOk read.entry (λ x. result ≡ Ok (x.0, length bytes.now - length x.1.now)) }
    ensures err { IfErr read.entry (λ e. result ≡ Err (record { kind = e.kind; at = length bytes.now - e.left })) }
{
    match read {
        Ok((x, rest)) => Ok((x, bytes.len() - rest.len())),
        Err(e) => Err(FileFault {
            kind: e.kind,
            at: (bytes.len() - e.left) as u64,
        }),
    }
}
