//! Replies, as the lists of their parts (RESP2, "RESP protocol description").

ghost use Rattle.std.specs.Prelude.{◌≡◌, ℕ, List, [], ◌∷◌, ◌++◌, IfOk, OnOk, OnErr, codes};
ghost use Rattle.plain_world.specs.Parts.{IsReply};

use crate::{Bytes, Refusal};
use smallvec::SmallVec;
use std::alloc::{AllocError, Global};
use std::marker::Model;

/// The text of a simple string, which is known beforehand and holds neither CR nor LF.
#[derive(Drop)]
pub struct Line {
    text: &'static [u8],
}

impl Model for Line {
    ghost use Rattle.std.specs.Prelude.{List, ℕ};
    ghost use Rattle.plain_world.specs.Lines.{IsLine};

    ghost Value = { List ℕ };

    ghost view = { λ l. l.text.now };

    ghost invariant = { λ l. IsLine l.text.now };
}

impl Line {
    /// `OK`.
    pub fn ok() -> Line
        ensures { result ≡ codes "OK" }
    {
        Line { text: b"OK" }
    }

    /// `QUEUED`, of a command that waits for EXEC.
    pub fn queued() -> Line
        ensures { result ≡ codes "QUEUED" }
    {
        Line { text: b"QUEUED" }
    }

    /// `PONG`.
    pub fn pong() -> Line
        ensures { result ≡ codes "PONG" }
    {
        Line { text: b"PONG" }
    }

    /// `none`, where TYPE finds no key.
    pub fn none() -> Line
        ensures { result ≡ codes "none" }
    {
        Line { text: b"none" }
    }

    /// `string`, the type's name.
    pub fn string() -> Line
        ensures { result ≡ codes "string" }
    {
        Line { text: b"string" }
    }

    /// `list`, the type's name.
    pub fn list() -> Line
        ensures { result ≡ codes "list" }
    {
        Line { text: b"list" }
    }

    /// `set`, the type's name.
    pub fn set() -> Line
        ensures { result ≡ codes "set" }
    {
        Line { text: b"set" }
    }

    /// `hash`, the type's name.
    pub fn hash() -> Line
        ensures { result ≡ codes "hash" }
    {
        Line { text: b"hash" }
    }

    /// `zset`, the name of the type of sorted sets.
    pub fn zset() -> Line
        ensures { result ≡ codes "zset" }
    {
        Line { text: b"zset" }
    }

    /// `stream`, the type's name.
    pub fn stream() -> Line
        ensures { result ≡ codes "stream" }
    {
        Line { text: b"stream" }
    }

    /// The text.
    pub fn as_slice(&self) -> &[u8]
        ensures { result.now ≡ self.now }
    {
        self.text
    }
}

/// A part of a reply. The replies of an array follow its head.
#[derive(Default, Drop)]
pub enum Part {
    /// A simple string.
    Simple(Line),
    /// A simple error.
    Refused(Refusal),
    /// An integer.
    Number(i64),
    /// A bulk string.
    Bulk(Bytes),
    /// The null bulk string.
    #[default]
    Null,
    /// The null array.
    NullArray,
    /// The head of an array of so many replies.
    Array(u64),
}

/// How many parts an array's head asks room for at once, at most.
const MOST_AHEAD: u64 = 1024;

/// Parts that are put together into a reply, which contracts see as their list.
#[derive(Drop)]
pub struct Parts {
    parts: SmallVec<Part, 1>,
}

impl Model for Parts {
    ghost use Rattle.std.specs.Prelude.{List};
    ghost use Rattle.plain_world.specs.declared.reply.Part.{Part};

    ghost Value = { List Part };

    ghost view = { λ p. p.parts.items };
}

impl Parts {
    /// No parts.
    pub fn new(alloc: Global) -> Parts
        ensures { result ≡ [] }
    {
        Parts {
            parts: SmallVec::new(alloc),
        }
    }

    /// Adds a part behind the others; an array's head takes room for the parts that follow it, up to 1,024. `Memory` leaves the parts.
    pub fn push(&mut self, part: Part) -> Result<(), AllocError>
        ensures ok { OnOk result (self.new ≡ self.old ++ part ∷ []) }
        ensures err { OnErr result (self.new ≡ self.old) }
    {
        if let Part::Array(count) = &part {
            self.parts.reserve(1 + (*count).min(MOST_AHEAD) as usize)?;
        }
        self.parts.push(part)?;
        Ok(())
    }

    /// Adds a whole reply behind the others, as one of those that follow an array's head. `Memory` leaves the parts.
    pub fn append(&mut self, reply: Reply) -> Result<(), AllocError>
        ensures ok { OnOk result (self.new ≡ self.old ++ reply) }
        ensures err { OnErr result (self.new ≡ self.old) }
    {
        let mut parts = reply.parts;
        self.parts.append(&mut parts)
    }

    /// The reply that they are.
    pub fn into_reply(self) -> Reply
        requires { IsReply self }
        ensures { result ≡ self }
    {
        Reply { parts: self.parts }
    }
}

/// One whole reply, which contracts see as the list of its parts, in the order in which they are spelled.
#[derive(Drop)]
pub struct Reply {
    parts: SmallVec<Part, 1>,
}

impl Model for Reply {
    ghost use Rattle.std.specs.Prelude.{List};
    ghost use Rattle.plain_world.specs.Parts.{IsReply};
    ghost use Rattle.plain_world.specs.declared.reply.Part.{Part};

    ghost Value = { List Part };

    ghost view = { λ r. r.parts.items };

    ghost invariant = { λ r. IsReply r.parts.items };
}

impl Reply {
    /// A simple string.
    pub fn simple(alloc: Global, line: Line) -> Result<Reply, AllocError>
        ensures { IfOk result (λ r. r ≡ Part.Simple line ∷ []) }
    {
        let mut parts = SmallVec::new(alloc);
        parts.push(Part::Simple(line))?;
        Ok(Reply { parts })
    }

    /// A simple error.
    pub fn refused(alloc: Global, refusal: Refusal) -> Result<Reply, AllocError>
        ensures { IfOk result (λ r. r ≡ Part.Refused refusal ∷ []) }
    {
        let mut parts = SmallVec::new(alloc);
        parts.push(Part::Refused(refusal))?;
        Ok(Reply { parts })
    }

    /// An integer.
    pub fn number(alloc: Global, n: i64) -> Result<Reply, AllocError>
        ensures { IfOk result (λ r. r ≡ Part.Number n ∷ []) }
    {
        let mut parts = SmallVec::new(alloc);
        parts.push(Part::Number(n))?;
        Ok(Reply { parts })
    }

    /// A bulk string.
    pub fn bulk(alloc: Global, bytes: Bytes) -> Result<Reply, AllocError>
        ensures { IfOk result (λ r. r ≡ Part.Bulk bytes ∷ []) }
    {
        let mut parts = SmallVec::new(alloc);
        parts.push(Part::Bulk(bytes))?;
        Ok(Reply { parts })
    }

    /// The null bulk string.
    pub fn null(alloc: Global) -> Result<Reply, AllocError>
        ensures { IfOk result (λ r. r ≡ Part.Null ∷ []) }
    {
        let mut parts = SmallVec::new(alloc);
        parts.push(Part::Null)?;
        Ok(Reply { parts })
    }

    /// Its parts, in the order in which they are spelled.
    pub fn parts(&self) -> &[Part]
        ensures { result.now ≡ self.now }
    {
        self.parts.as_slice()
    }
}
