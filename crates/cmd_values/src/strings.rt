//! Commands on strings.

mod changing;
mod counting;
mod dispatch;
mod lasting;
mod look;
mod reading;
mod writing;

pub use changing::{append, setrange};
pub use counting::{decr, decrby, incr, incrby};
pub use dispatch::run_strings;
pub use lasting::{getex, psetex, setex};
pub use reading::{get, getrange, mget, strlen};
pub use writing::{getdel, getset, mset, msetnx, set, setnx};
