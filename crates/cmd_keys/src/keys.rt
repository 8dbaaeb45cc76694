//! Commands on keys of any type.

mod asking;
mod copying;
mod deadlines;
mod encoding;
mod look;
mod moving;
mod removing;
mod scanning;

pub use asking::{exists, expiretime, pexpiretime, pttl, touch, ttl, type_of};
pub use copying::copy;
pub use deadlines::{expire, expireat, persist, pexpire, pexpireat};
pub use encoding::object_encoding;
pub use moving::{move_key, randomkey, rename, renamenx};
pub use removing::{del, unlink};
pub use scanning::{keys_like, scan};
