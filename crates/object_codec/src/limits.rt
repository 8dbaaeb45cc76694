// The limits of the packed forms.

ghost use Rattle.object_codec.specs.Defaults.{AreDefaults};

/// Up to which size collections are kept packed. The numbers are those of the Redis configuration `hash-max-listpack-entries`
/// and its like.
#[derive(Clone, Copy, Debug, PartialEq, Eq)]
pub struct Limits {
    /// The most fields of a packed hash.
    pub hash_entries: u32,
    /// The most members of a packed set.
    pub set_entries: u32,
    /// The most members of a packed sorted set.
    pub zset_entries: u32,
    /// The most bytes of a field or a value of a packed hash.
    pub hash_value: u32,
    /// The most bytes of a member of a packed set.
    pub set_value: u32,
    /// The most bytes of a member of a packed sorted set.
    pub zset_value: u32,
    /// The most members of a set of numbers.
    pub set_intset: u32,
}

impl Default for Limits {
    ghost is_default = { AreDefaults };

    fn default() -> Limits {
        Limits {
            hash_entries: 512,
            set_entries: 128,
            zset_entries: 128,
            hash_value: 64,
            set_value: 64,
            zset_value: 64,
            set_intset: 512,
        }
    }
}
