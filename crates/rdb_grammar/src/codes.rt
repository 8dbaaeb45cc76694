//! The first byte of an item: an opcode, or the type of a value; and that of a string in a form of its own (Redis 7.2, rdb.h).

/// A function of a library.
pub(crate) const FUNCTION: u8 = 245;
/// The same as a version before the release wrote it.
pub(crate) const OLD_FUNCTION: u8 = 246;
/// A module's own data.
pub(crate) const MODULE_DATA: u8 = 247;
/// How long the next key was idle.
pub(crate) const IDLE: u8 = 248;
/// How often the next key is used.
pub(crate) const FREQUENCY: u8 = 249;
/// A name and what it says of the file.
pub(crate) const AUXILIARY: u8 = 250;
/// How many keys and deadlines follow.
pub(crate) const SIZES: u8 = 251;
/// The next key's deadline, in milliseconds.
pub(crate) const DEADLINE_MS: u8 = 252;
/// The next key's deadline, in seconds.
pub(crate) const DEADLINE: u8 = 253;
/// The database of the keys that follow.
pub(crate) const SELECT_DB: u8 = 254;
/// The end of the items.
pub(crate) const EOF: u8 = 255;

/// A string.
pub(crate) const STRING: u8 = 0;
/// A list, a set, a hash, a sorted set: their elements one behind the other.
pub(crate) const LIST: u8 = 1;

pub(crate) const SET: u8 = 2;

pub(crate) const HASH: u8 = 4;

pub(crate) const SORTED_SET: u8 = 5;
/// A sorted set with scores as texts.
pub(crate) const OLD_SORTED_SET: u8 = 3;
/// A module's value, of either version.
pub(crate) const OLD_MODULE: u8 = 6;

pub(crate) const MODULE: u8 = 7;
/// A hash as a zipmap.
pub(crate) const HASH_ZIPMAP: u8 = 9;
/// A list, a sorted set or a hash as a ziplist, and a list of such.
pub(crate) const LIST_ZIPLIST: u8 = 10;

pub(crate) const SORTED_SET_ZIPLIST: u8 = 12;

pub(crate) const HASH_ZIPLIST: u8 = 13;

pub(crate) const LIST_OF_ZIPLISTS: u8 = 14;

/// A set as an intset, and collections as listpacks.
pub(crate) const INTSET: u8 = 11;

pub(crate) const PACKED_HASH: u8 = 16;

pub(crate) const PACKED_SORTED_SET: u8 = 17;

pub(crate) const PACKED_SET: u8 = 20;
/// A stream, in one of three versions.
pub(crate) const STREAM: u8 = 15;

pub(crate) const SECOND_STREAM: u8 = 19;

pub(crate) const THIRD_STREAM: u8 = 21;
/// A list in nodes.
pub(crate) const LIST_OF_NODES: u8 = 18;

/// A string that is a number of 8, of 16 and of 32 bits.
pub(crate) const INT8: u8 = 192;

pub(crate) const INT16: u8 = 193;

pub(crate) const INT32: u8 = 194;
/// A string that is compressed.
pub(crate) const LZF: u8 = 195;
