//! The forms in which values are kept, their limits and their names.
#![tactic(auto)]

mod form;
mod laws;
mod limits;
mod name;

pub use form::{Form, hash_form, list_form, set_form, zset_form};
pub use laws::{forms_are_one, forms_rise};
pub use limits::Limits;
pub use name::{Name, string_name};
