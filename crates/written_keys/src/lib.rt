//! Which keys a command may write.
#![tactic(auto)]

mod emptying;
mod laws;
mod placing;

pub use emptying::{Emptied, emptied_by};
pub use laws::others_stay;
pub use placing::{Places, places_of};
