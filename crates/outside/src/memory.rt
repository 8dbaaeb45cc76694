//! Forms in memory, which tell all that there is to know of them.

pub(crate) mod files;
pub(crate) mod streams;
pub(crate) mod time;
