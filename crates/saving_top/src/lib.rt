//! A run behind which more may be done, from its words on: serves as other runs do, and then tells what stands in the slabs, and
//! writes the world that is left into a file, where the words ask for that.
#![tactic(auto)]

mod closing;
pub mod laws;
pub mod process;
pub mod top_call;
pub mod words;
