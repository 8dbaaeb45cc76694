//! The real host.

ghost use Rattle.std.specs.Prelude.{◌≡◌, None, false, is_some};
ghost use Rattle.outside.specs.Files.{told_by};

use crate::standard::streams::read_uninterrupted;
use crate::{Host, HostFault};
use std::fs;
use std::fs::Files;

/// A host over the files of a runtime.
#[derive(Drop)]
pub struct FileHost<R: Files> {
    runtime: R,
    file: Option<R::File>,
    faults: u64,
}

impl<R: Files> FileHost<R> {
    /// A host over the files of this runtime, or of a `&` of one, with none begun and no fault so far.
    pub fn new(runtime: R) -> FileHost<R>
        ensures none { result.file ≡ None }
        ensures faults { result.faults ≡ 0 }
    {
        FileHost {
            runtime,
            file: None,
            faults: 0,
        }
    }
}

impl<R: Files> Host for FileHost<R> {
    ghost seen = { λ s. record { files = None; begun = is_some s.file; reading = record { told = told_by (λ f. R.File.remaining f) s.file; faults = s.faults; sure = false } } };

    fn begin(&mut self, name: &str) -> Result<(), HostFault> {
        match fs::open(&self.runtime, name) {
            Ok(file) => {
                self.file = Some(file);
                Ok(())
            }
            Err(_) => {
                self.file = None;
                self.faults = self.faults.saturating_add(1);
                Err(HostFault)
            }
        }
    }

    fn take(&mut self, into: &mut [u8]) -> Result<usize, HostFault> {
        let Some(file) = &mut self.file else {
            return Ok(0);
        };
        match read_uninterrupted(file, into) {
            Ok(n) => Ok(n),
            Err(_) => {
                self.faults = self.faults.saturating_add(1);
                Err(HostFault)
            }
        }
    }
}
