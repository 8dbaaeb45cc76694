//! What lies outside the program: where bytes come from and where they go, files, the time, and the pace of background work.
//!
//! Each trait says what is told of a value (`seen`), and each call what it does to that. The forms in memory tell all; the
//! real ones, over std's readers, writers, files and clock, tell of their bytes what those tell, and of the rest nothing.
#![tactic(auto)]

mod faults;
mod files;
mod memory;
mod pacing;
mod standard;
mod streams;
mod time;

pub use faults::{HostFault, ReadFault, WriteFault};
pub use files::{Host, Shelf};
pub use memory::files::{MemHost, MemShelf};
pub use memory::streams::{MemSink, MemSource};
pub use memory::time::ListClock;
pub use pacing::{Conductor, ListPacer, Pacer, Plan, SteadyPacer};
pub use standard::files::FileHost;
pub use standard::shelf::FileShelf;
pub use standard::streams::{StdSink, StdSource};
pub use standard::time::SystemClock;
pub use streams::{Sink, Source};
pub use time::Clock;
