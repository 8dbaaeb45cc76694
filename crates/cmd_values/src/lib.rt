//! The commands on values, over a keyspace: a folder for each type of value.
//!
//! Each command has a function of its own, named by it in lower case, which takes its words. It is a step of the model on
//! what the keyspace means; the refusals of the world are replies, and change nothing. After want of memory the keyspace
//! is sound, and what it means is not said.
#![tactic(auto)]

mod strings;

pub use strings::{
    append, decr, decrby, get, getdel, getex, getrange, getset, incr, incrby, mget, mset, msetnx,
    psetex, run_strings, set, setex, setnx, setrange, strlen,
};
