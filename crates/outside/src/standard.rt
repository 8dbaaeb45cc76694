//! The real forms: the trusted edge. Of their bytes they tell what std's readers and writers tell.

pub(crate) mod files;
pub(crate) mod shelf;
pub(crate) mod streams;
pub(crate) mod time;
