// The ids of entries.

ghost use Rattle.std.specs.Prelude.{◌≡◌, ◌↔◌, ◌+◌, ◌^◌, IsTrue, IfSome, IfNone};
ghost use Rattle.stream_node.specs.Entry.{IsBelow};
ghost use Rattle.stream_node.specs.Ids.{id_number, id_key, key_id};

/// The id of an entry: milliseconds, and a number among the entries of one millisecond.
#[derive(Clone, Copy, Debug, PartialEq, Eq)]
pub struct Id {
    pub ms: u64,
    pub seq: u64,
}

impl Id {
    /// Whether this id stands before the other one: by milliseconds, then by sequence number.
    pub fn is_below(self, other: Id) -> bool
        ensures { IsTrue result ↔ IsBelow self other }
    {
        if self.ms == other.ms {
            self.seq < other.seq
        } else {
            self.ms < other.ms
        }
    }

    /// The id that follows in the order of ids. `None` comes exactly at the greatest one.
    pub fn next(self) -> Option<Id>
        ensures some { IfSome result (λ id. id_number id ≡ id_number self + 1) }
        ensures none { IfNone result (id_number self + 1 ≡ 2 ^ 128) }
    {
        let Id { ms, seq } = self;
        if seq < u64::MAX {
            return Some(Id { ms, seq: seq + 1 });
        }
        if ms < u64::MAX {
            return Some(Id { ms: ms + 1, seq: 0 });
        }
        None
    }

    /// The id that this one follows. `None` comes exactly at the least one, 0-0.
    pub fn previous(self) -> Option<Id>
        ensures some { IfSome result (λ id. id_number id + 1 ≡ id_number self) }
        ensures none { IfNone result (id_number self ≡ 0) }
    {
        let Id { ms, seq } = self;
        if seq > 0 {
            return Some(Id { ms, seq: seq - 1 });
        }
        if ms > 0 {
            return Some(Id {
                ms: ms - 1,
                seq: u64::MAX,
            });
        }
        None
    }

    /// The id as sixteen bytes: both numbers, each with its highest byte first. Their order is that of the ids.
    pub fn key(self) -> [u8; 16]
        ensures { result ≡ id_key self }
    {
        let mut key = [0; 16];
        key[..8].copy_from_slice(&self.ms.to_be_bytes());
        key[8..].copy_from_slice(&self.seq.to_be_bytes());
        key
    }

    /// The id that sixteen bytes are.
    pub fn of_key(key: &[u8; 16]) -> Id
        ensures { result ≡ key_id key.now }
    {
        Id {
            ms: u64::from_be_bytes([
                key[0], key[1], key[2], key[3], key[4], key[5], key[6], key[7],
            ]),
            seq: u64::from_be_bytes([
                key[8], key[9], key[10], key[11], key[12], key[13], key[14], key[15],
            ]),
        }
    }

    /// The id as one number, its milliseconds above its sequence number.
    pub fn number(self) -> u128
        ensures { result ≡ id_number self }
    {
        (u128::from(self.ms) << 64) + u128::from(self.seq)
    }

    /// The id that a number is.
    pub fn of_number(number: u128) -> Id
        ensures { id_number result ≡ number }
    {
        Id {
            ms: (number >> 64) as u64,
            seq: (number & u128::from(u64::MAX)) as u64,
        }
    }
}
