//! The bytes of all requests of a run, and of the replies that are due.

use crate::case::{Case, Row};
use std::alloc::{AllocError, Global};

/// The bytes of requests, and those of the replies that are due.
#[derive(Drop)]
pub struct Talk {
    pub requests: Vec<u8>,
    pub replies: Vec<u8>,
    /// How many bytes of replies are due behind each row that has one.
    pub ends: Vec<usize>,
}

impl Talk {
    fn new(alloc: Global) -> Talk {
        Talk {
            requests: Vec::new(alloc),
            replies: Vec::new(alloc),
            ends: Vec::new(alloc),
        }
    }

    fn add(&mut self, row: &Row) -> Result<(), AllocError> {
        self.requests.extend_from_slice(row.request.as_slice())?;
        if row.reply.is_empty() {
            return Ok(());
        }
        self.replies.extend_from_slice(row.reply.as_slice())?;
        self.ends.push(self.replies.len())?;
        Ok(())
    }

    fn add_all(&mut self, rows: &[Row]) -> Result<(), AllocError> {
        for row in rows {
            self.add(row)?;
        }
        Ok(())
    }

    /// How many replies these bytes begin with.
    pub fn answered(&self, output: &[u8]) -> usize {
        let mut common = 0usize;
        for (is, due) in output.iter().zip(self.replies.iter()) {
            if *is != *due {
                break;
            }
            common = common.saturating_add(1);
        }
        self.ends.iter().filter(|end| **end <= common).count()
    }
}

/// All rows, and behind them what is refused.
pub fn whole(alloc: Global, case: &Case) -> Result<Talk, AllocError> {
    let mut talk = Talk::new(alloc);
    talk.add_all(case.rows.as_slice())?;
    talk.add_all(case.refused.as_slice())?;
    Ok(talk)
}

/// The rows that aren't refused.
pub fn bare(alloc: Global, case: &Case) -> Result<Talk, AllocError> {
    let mut talk = Talk::new(alloc);
    for row in &case.rows {
        if !row.reply.starts_with(b"-") {
            talk.add(row)?;
        }
    }
    Ok(talk)
}

/// All rows, with all that is refused behind each.
pub fn among(alloc: Global, case: &Case) -> Result<Talk, AllocError> {
    let mut talk = Talk::new(alloc);
    for row in &case.rows {
        talk.add(row)?;
        talk.add_all(case.refused.as_slice())?;
    }
    Ok(talk)
}
