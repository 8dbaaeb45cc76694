//! The run that may be saved, as a process makes it: over the real files, streams and clock.

ghost use Rattle.std.specs.Prelude.{◌≡◌, IfOk, OnErr, map, string_bytes};
ghost use Rattle.saving_top.specs.Ends.{Answers};

use crate::top_call::redis_core_save;
use outside::{
    Clock, FileHost, FileShelf, Pacer, Sink, StdSink, StdSource, SteadyPacer, SystemClock,
};
use program_top::process::Program;
use std::alloc::AllocError;

/// The program that may save.
#[derive(Clone, Copy)]
pub struct Saving;

impl Program for Saving {
    ghost comes_to = { λ words noted noted' status. Answers words noted noted' status };

    fn run<N: Sink>(
        &self,
        rt: &HostRuntime,
        words: &[String],
        notes: &mut N,
    ) -> Result<u8, AllocError> {
        let mut host = FileHost::new(rt);
        let mut input = StdSource::new(rt.stdin());
        let mut output = StdSink::new(rt.stdout());
        let mut clock: Box<dyn Clock> = Box::new(rt.alloc(), SystemClock::new(rt.clone()?))?;
        let alloc = rt.alloc();
        let pacer: Box<dyn Pacer> = Box::new(alloc, SteadyPacer::new())?;
        let mut pacers = Vec::new(alloc);
        pacers.push(pacer)?;
        let mut shelf = FileShelf::new(alloc, rt);
        Ok(redis_core_save(
            alloc,
            words,
            &mut host,
            &mut input,
            &mut output,
            notes,
            &mut clock,
            pacers,
            &mut shelf,
        ))
    }
}
