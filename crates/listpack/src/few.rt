// A few bytes at once.

ghost use Rattle.std.specs.Prelude.{◌≡◌, ◌≤◌, ℕ, List, length, take};

use std::marker::Model;

/// At most nine bytes: the first `len` of these.
#[derive(Drop)]
pub struct FewBytes {
    bytes: [u8; 9],
    len: usize,
}

impl Model for FewBytes {
    ghost Value = { List ℕ };

    ghost view = { λ few. take few.len few.bytes };

    ghost invariant = { λ few. few.len ≤ 9 };
}

impl FewBytes {
    /// The bytes of `part`.
    pub(crate) fn of(part: &[u8]) -> FewBytes
        requires { length part.now ≤ 9 }
        ensures { result ≡ part.now }
    {
        let mut bytes = [0; 9];
        bytes[..part.len()].copy_from_slice(part);
        FewBytes {
            bytes,
            len: part.len(),
        }
    }

    /// How many they are.
    pub fn len(&self) -> usize
        ensures value { result ≡ length self.now }
        ensures few { result ≤ 9 }
    {
        self.len
    }

    /// The bytes.
    pub fn as_slice(&self) -> &[u8]
        ensures { result.now ≡ self.now }
    {
        &self.bytes[..self.len]
    }
}
