//! The table of the kinds of commands.

ghost use Rattle.std.specs.Prelude.{◌≡◌, ◌%◌, [], ◌∷◌, ◌++◌, OnOk};
ghost use Rattle.std.specs.Fmt.{decimal};
ghost use Rattle.resp_frames.specs.Frames.{request_bytes};
ghost use Rattle.generator.specs.Commands.{kind_of, words_of};
ghost use Rattle.generator.specs.Requests.{word_bytes};

use crate::requests::Word::{Named, Number, Text};
use crate::requests::{Word, put_request};
use std::alloc::AllocError;

/// A kind of command.
#[derive(Clone, Copy)]
pub enum Kind {
    Set,
    Get,
    IncrBy,
    RPush,
    LRange,
    SAdd,
    SIsMember,
    HSet,
    HGet,
    ZAdd,
    ZRange,
    XAdd,
    Del,
}

// The kinds by the rest of a word divided by 16.
const KINDS: [Kind; 16] = [
    Kind::Set,
    Kind::Set,
    Kind::Set,
    Kind::Get,
    Kind::Get,
    Kind::IncrBy,
    Kind::RPush,
    Kind::LRange,
    Kind::SAdd,
    Kind::SIsMember,
    Kind::HSet,
    Kind::HGet,
    Kind::ZAdd,
    Kind::ZRange,
    Kind::XAdd,
    Kind::Del,
];

// The first letters of the keys that are deleted, by the rest of a word divided by 6.
const LETTERS: [u8; 6] = *b"snlthz";

// The kind that a word names.
pub fn kind_of(word: u64) -> Kind
    ensures { result ≡ kind_of word }
{
    KINDS[(word % 16) as usize]
}

// The request of a name and a key.
fn put_two(bytes: &mut Vec<u8>, name: &[u8], letter: &[u8], key: u64) -> Result<(), AllocError>
    ensures { OnOk result (bytes.new.items ≡ request_bytes (name.now ∷ (letter.now ++ decimal key) ∷ [])) }
{
    put_request(bytes, &[Text(name), Named(letter, key)])
}

// The request of a name, a key and a word more.
fn put_three(
    bytes: &mut Vec<u8>,
    name: &[u8],
    letter: &[u8],
    key: u64,
    third: Word<'_>,
) -> Result<(), AllocError>
    ensures { OnOk result (bytes.new.items ≡ request_bytes (name.now ∷ (letter.now ++ decimal key) ∷ word_bytes third.entry ∷ [])) }
{
    put_request(bytes, &[Text(name), Named(letter, key), third])
}

// The request of a name, a key and two words more.
fn put_four(
    bytes: &mut Vec<u8>,
    name: &[u8],
    letter: &[u8],
    key: u64,
    third: Word<'_>,
    fourth: Word<'_>,
) -> Result<(), AllocError>
    ensures { OnOk result (bytes.new.items ≡ request_bytes (name.now ∷ (letter.now ++ decimal key) ∷ word_bytes third.entry ∷ word_bytes fourth.entry ∷ [])) }
{
    put_request(bytes, &[Text(name), Named(letter, key), third, fourth])
}

// The request of an entry of a stream, which has one field.
fn put_entry(bytes: &mut Vec<u8>, key: u64, word: u64) -> Result<(), AllocError>
    ensures { OnOk result (bytes.new.items ≡ request_bytes (words_of Kind.XAdd key word)) }
{
    put_request(
        bytes,
        &[
            Text(b"XADD"),
            Named(b"x:", key),
            Text(b"*"),
            Text(b"f"),
            Number(word),
        ],
    )
}

/// The bytes of a request of this kind, on the key of this number, with this word. What stood in the bytes is cleared.
pub fn put_command(bytes: &mut Vec<u8>, kind: Kind, key: u64, word: u64) -> Result<(), AllocError>
    ensures { OnOk result (bytes.new.items ≡ request_bytes (words_of kind key word)) }
{
    match kind {
        Kind::Set => put_three(bytes, b"SET", b"s:", key, Number(word)),
        Kind::Get => put_two(bytes, b"GET", b"s:", key),
        Kind::IncrBy => put_three(bytes, b"INCRBY", b"n:", key, Number(word % 1000)),
        Kind::RPush => put_three(bytes, b"RPUSH", b"l:", key, Number(word)),
        Kind::LRange => put_four(bytes, b"LRANGE", b"l:", key, Number(0), Number(9)),
        Kind::SAdd => put_three(bytes, b"SADD", b"t:", key, Number(word % 64)),
        Kind::SIsMember => put_three(bytes, b"SISMEMBER", b"t:", key, Number(word % 64)),
        Kind::HSet => put_four(
            bytes,
            b"HSET",
            b"h:",
            key,
            Named(b"f", word % 32),
            Number(word),
        ),
        Kind::HGet => put_three(bytes, b"HGET", b"h:", key, Named(b"f", word % 32)),
        Kind::ZAdd => put_four(
            bytes,
            b"ZADD",
            b"z:",
            key,
            Number(word % 1000),
            Named(b"m", word % 64),
        ),
        Kind::ZRange => put_four(bytes, b"ZRANGE", b"z:", key, Number(0), Number(9)),
        Kind::XAdd => put_entry(bytes, key, word),
        Kind::Del => put_two(bytes, b"DEL", &[LETTERS[(word % 6) as usize], b':'], key),
    }
}
