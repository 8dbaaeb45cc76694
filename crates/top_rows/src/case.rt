//! What a run of the program is given.

use outside::Plan;
use std::alloc::Global;

/// Bytes that are asked, and those that are answered to them.
#[derive(Drop)]
pub struct Row {
    pub request: Vec<u8>,
    pub reply: Vec<u8>,
}

/// What a run is given.
#[derive(Drop)]
pub struct Case {
    pub words: Vec<String>,
    /// The bytes of the file `f`, where there is one.
    pub file: Option<Vec<u8>>,
    pub rows: Vec<Row>,
    /// Requests that are refused whatever stands at any key.
    pub refused: Vec<Row>,
    /// The calls of the host, the input and the output that fail.
    pub host: Vec<u64>,
    pub reads: Vec<u64>,
    pub writes: Vec<u64>,
    /// How many bytes each take gives.
    pub pieces: Vec<usize>,
    /// What the clock answers in turn, in milliseconds.
    pub moments: Vec<u64>,
    /// The moment of each row that follows, where one is said.
    pub moment: Option<u64>,
    pub plans: Vec<Plan>,
    /// What stands for `~` in rows.
    pub filler: Vec<u8>,
    /// The room of the output and of the notes, in bytes.
    pub room: usize,
    pub notes: usize,
}

impl Case {
    pub fn new(alloc: Global) -> Case {
        Case {
            words: Vec::new(alloc),
            file: None,
            rows: Vec::new(alloc),
            refused: Vec::new(alloc),
            host: Vec::new(alloc),
            reads: Vec::new(alloc),
            writes: Vec::new(alloc),
            pieces: Vec::new(alloc),
            moments: Vec::new(alloc),
            moment: None,
            plans: Vec::new(alloc),
            filler: Vec::new(alloc),
            room: 20_000,
            notes: 100,
        }
    }
}
