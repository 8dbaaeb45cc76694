//! The commands on keys, whatever the type of their values, and those on the connection and the server, over a keyspace.
//!
//! Each command has a function of its own, named by it in lower case, which takes its words. It is a step of the model on
//! what the keyspace means; the refusals of the world are replies, and change nothing. After want of memory the keyspace
//! is sound, and what it means is not said.
#![tactic(auto)]

mod connection;
mod dispatch;
mod keys;
mod slabs;

pub use connection::{dbsize, debug_rehash, echo, flushall, flushdb, ping, quit};
pub use dispatch::{run_connection, run_keys};
pub use keys::{
    copy, del, exists, expire, expireat, expiretime, keys_like, move_key, object_encoding, persist,
    pexpire, pexpireat, pexpiretime, pttl, randomkey, rename, renamenx, scan, touch, ttl, type_of,
    unlink,
};
pub use slabs::memory_slabs;
