ghost use Rattle.std.specs.Prelude.{◌≡◌, ◌<◌, ◌+◌, ◌%◌, ◌/◌, ◌++◌, ◌∷◌, [], ◌-◌, length, replicate};

use byteorder::{ByteOrder, LittleEndian};

/// The four words of SipHash.
#[derive(Clone, Copy)]
struct State {
    v0: u64,
    v1: u64,
    v2: u64,
    v3: u64,
}

impl State {
    ghost use Rattle.digests.specs.Siphash.{initial, round, rounds, absorbed, finished};

    fn new(k0: u64, k1: u64) -> State
        ensures { result ≡ initial k0 k1 }
    {
        State {
            v0: k0 ^ 0x736f_6d65_7073_6575,
            v1: k1 ^ 0x646f_7261_6e64_6f6d,
            v2: k0 ^ 0x6c79_6765_6e65_7261,
            v3: k1 ^ 0x7465_6462_7974_6573,
        }
    }

    #[tactic(auto, unfolding(crate::specs::Siphash::round))]
    fn round(self) -> State
        ensures { result ≡ round self }
    {
        let (v0, v1) = mix(self.v0, self.v1, 13);
        let (v2, v3) = mix(self.v2, self.v3, 16);
        let (v0, v3) = mix(v0.rotate_left(32), v3, 21);
        let (v2, v1) = mix(v2, v1, 17);
        State {
            v0,
            v1,
            v2: v2.rotate_left(32),
            v3,
        }
    }

    fn rounds(self, count: u32) -> State
        ensures { result ≡ rounds count self }
    {
        let mut state = self;
        for _ in 0..count {
            state = state.round();
        }
        state
    }

    /// Takes in a word of the message.
    fn absorb(self, c: u32, word: u64) -> State
        ensures { result ≡ absorbed c word self }
    {
        let v3 = self.v3 ^ word;
        let mixed = State { v3, ..self }.rounds(c);
        State {
            v0: mixed.v0 ^ word,
            ..mixed
        }
    }

    fn finish(self, d: u32) -> u64
        ensures { result ≡ finished d self }
    {
        let v2 = self.v2 ^ 0xff;
        let last = State { v2, ..self }.rounds(d);
        last.v0 ^ last.v1 ^ last.v2 ^ last.v3
    }
}

ghost use Rattle.digests.specs.Siphash.{plus, mixed, sip, word_at};

/// The sum of two words, and the second one rotated and mixed with it.
fn mix(a: u64, b: u64, by: u32) -> (u64, u64)
    ensures { result ≡ (plus a b, mixed a b by) }
{
    let sum = a.wrapping_add(b);
    (sum, b.rotate_left(by) ^ sum)
}

/// The bytes of the last word: those that are left, null bytes, and the message's length modulo 256.
fn last_bytes(tail: &[u8], len: usize) -> [u8; 8]
    requires { length tail.now < 8 }
    ensures { result ≡ tail.now ++ replicate (7 - length tail.now) 0 ++ (len % 256) ∷ [] }
{
    let mut bytes = [0u8; 8];
    bytes[..tail.len()].copy_from_slice(tail);
    bytes[7] = (len % 256) as u8;
    bytes
}

/// The whole word with this number.
fn word_at(bytes: &[u8], word: usize) -> u64
    requires { word < length bytes.now / 8 }
    ensures { result ≡ word_at bytes.now word }
{
    LittleEndian::read_u64(&bytes[8 * word..])
}

/// SipHash of the bytes under the key `k0`, `k1`, with `c` rounds a word and `d` rounds at the end, by
/// Aumasson and Bernstein's "SipHash: a fast short-input PRF".
pub fn sip(c: u32, d: u32, k0: u64, k1: u64, bytes: &[u8]) -> u64
    ensures { result ≡ sip c d k0 k1 bytes.now }
{
    let mut state = State::new(k0, k1);
    let words = bytes.len() / 8;
    for word in 0..words {
        state = state.absorb(c, word_at(bytes, word));
    }
    let last = last_bytes(&bytes[8 * words..], bytes.len());
    state.absorb(c, LittleEndian::read_u64(&last)).finish(d)
}
