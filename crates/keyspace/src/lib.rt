//! The sixteen databases of a server over a block store: every key and value stands in its blocks.
#![tactic(auto)]

mod copying;
mod deadlines;
mod edit;
mod kind;
mod look;
mod paging;
mod telling;
mod value;

pub use deadlines::{deadline_at, expire_sought, persist_sought, seek};
pub use edit::{Edit, drop_sought, edit_new, edit_there};
pub use held::{Sought, SoughtAt};
pub use look::Look;
pub use paging::{Paged, empty_page, is_like, page_of, page_reply, push_names};
pub use telling::{bytes_of, count_reply, length_of, number_text, reply_number};
pub use value::Value;

/// A store, and the databases over it.
pub type Keyspace<B> = held::Keyspace<Value, B>;

/// The 16 databases.
pub type Databases = held::Databases<Value>;

/// A value taken out of its place.
pub type Lifted = held::Lifted<Value>;
