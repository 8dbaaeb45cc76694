//! Requests out of a stream that comes in pieces.

ghost use Rattle.std.specs.Prelude.{◌≡◌, ◌+◌, ◌++◌, ◌<◌, ◌≤◌, ◌^◌, ℕ, List, [], length, drop, vec_len, IfOk, OnOk, OnErr, IsSome, Some, None, slice_index_or, Ok, true};
ghost use Rattle.plain_world.specs.Words.{IsRequest};
ghost use Rattle.resp_frames.specs.Feeding.{NextFound, NextIs, HasFed};
ghost use Rattle.resp_frames.specs.RequestRead.{word_at, words_at, AreWithin, Stands};

use crate::request::{Found, Progress, read_request};
use crate::rule::Rule;
use crate::span::{Span, Spans};
use crate::whole::{Ahead, read_ahead};
use std::alloc::{AllocError, Global};
use std::marker::Model;
use thiserror::Error;

/// Why no next request is given.
#[derive(Clone, Copy, Debug, PartialEq, Eq, Error)]
pub enum FrameFault {
    /// The bytes break this rule, at the byte of this number from the start of the stream.
    #[error("{rule} at byte {at}")]
    Protocol { rule: Rule, at: u64 },
    /// Want of memory.
    #[error("out of memory")]
    Memory,
}

/// The words of a request, which are parts of the bytes that were fed. Contracts see the list of the words.
#[derive(Drop)]
pub struct Request<'a> {
    bytes: &'a [u8],
    spans: &'a [Span],
}

impl<'a> Model for Request<'a> {
    ghost use Rattle.plain_world.specs.Words.{Words};
    ghost use Rattle.resp_frames.specs.RequestRead.{words_at};
    ghost use Rattle.resp_frames.specs.Feeding.{IsOut};

    ghost Value = { Words };

    ghost view = { λ r. words_at r.bytes.now r.spans.now };

    ghost invariant = { λ r. IsOut r.bytes.now r.spans.now };
}

impl Request<'_> {
    /// How many words it has: 1 to 1,048,576, each of at most 536,870,912 bytes.
    pub fn len(&self) -> usize
        ensures len { result ≡ length self.now }
        ensures request { IsRequest self.now }
    {
        self.spans.len()
    }

    /// A word.
    pub fn word(&self, index: usize) -> &[u8]
        requires { index < length self.now }
        ensures { result.now ≡ slice_index_or self.now index [] }
    {
        word_in(self.bytes, self.spans, index)
    }
}

// The bytes of a word.
fn word_of(bytes: &[u8], span: Span) -> &[u8]
    requires { span.start + span.len ≤ length bytes.now }
    ensures { result.now ≡ word_at bytes.now span }
{
    &bytes[span.start..span.start + span.len]
}

// The bytes of one of the words.
fn word_in<'a>(bytes: &'a [u8], spans: &[Span], index: usize) -> &'a [u8]
    requires within { AreWithin bytes.now spans.now }
    requires index { index < length spans.now }
    ensures { result.now ≡ slice_index_or (words_at bytes.now spans.now) index [] }
{
    word_of(bytes, spans[index])
}

// Takes away the first n bytes.
fn drop_front(bytes: &mut Vec<u8>, n: usize)
    requires { n ≤ vec_len bytes.old }
    ensures { bytes.new.items ≡ drop n bytes.old.items }
{
    let rest = bytes.len() - n;
    bytes.copy_within(n.., 0);
    bytes.truncate(rest);
}

/// What stands at the front of the bytes, after what is passed over.
#[derive(Clone, Copy)]
pub enum Next {
    /// Nothing, or a request that isn't whole, and how far it is read.
    Open(Progress),
    /// A request that ends there.
    Request(usize),
    /// A rule is broken, at this byte.
    Broken(Rule, usize),
}

// Reads on from what is read so far, and passes over what has no words.
fn next_found(
    bytes: &[u8],
    progress: Progress,
    spans: &mut Spans,
) -> Result<(usize, Next), AllocError>
    requires { Stands bytes.now progress.read spans.old.items progress.due }
    ensures { IfOk result (λ r. NextFound bytes.now spans.new.items r.0 r.1) }
{
    let mut at = 0;
    let mut read = progress;
    'passed: loop {
        match read_request(&bytes[at..], read, spans)? {
            Found::Open(open) => return Ok((at, Next::Open(open))),
            Found::Request(end) => return Ok((at, Next::Request(end))),
            Found::Broken(rule, place) => return Ok((at, Next::Broken(rule, place))),
            Found::Passed(end) => at += end,
        }
        read = Progress::start();
    }
}

/// Takes the pieces of a stream, and gives out its requests.
///
/// Contracts see how many bytes were given out or passed over, the bytes that were fed and not given out, and the words
/// of the request that was given out last, where nothing else was done since. For speed alone, which no clause speaks of, reading
/// goes on from where it stopped when more bytes come, and words are lent and not copied.
#[derive(Drop)]
pub struct Feeder {
    // so many bytes of the stream were dropped
    gone: u64,
    bytes: Vec<u8>,
    // the request begins there whose words stand in `spans`
    base: usize,
    // what was not given out begins there: at `base`, or after the request that was given out
    at: usize,
    spans: Spans,
    progress: Progress,
    is_ready: bool,
}

impl Model for Feeder {
    ghost use Rattle.resp_frames.specs.Feeding.{Feeding, feeding, IsFeeder};

    ghost Value = { Feeding };

    ghost view = { λ f. feeding f.gone f.bytes.items f.base f.at f.spans.items f.is_ready };

    ghost invariant = { λ f. IsFeeder f.gone f.bytes.items f.base f.at f.spans.items f.progress f.is_ready };
}

impl Feeder {
    /// A feeder that was fed nothing.
    pub fn new(alloc: Global) -> Feeder
        ensures { result ≡ record { gone = 0; kept = []; current = None } }
    {
        Feeder {
            gone: 0,
            bytes: Vec::new(alloc),
            base: 0,
            at: 0,
            spans: Vec::new(alloc),
            progress: Progress::start(),
            is_ready: false,
        }
    }

    /// Takes the next piece of the stream, of which at most 2^62 bytes are fed in all.
    pub fn feed(&mut self, piece: &[u8]) -> Result<(), AllocError>
        requires { HasFed self.old (length piece.now) }
        ensures ok { OnOk result (self.new ≡ record { gone = self.old.gone; kept = self.old.kept ++ piece.now; current = None }) }
        ensures memory { OnErr result (self.new ≡ record { gone = self.old.gone; kept = self.old.kept; current = None }) }
    {
        self.forget();
        self.shed();
        self.bytes.extend_from_slice(piece)
    }

    // The request that was given out isn't lent any more.
    fn forget(&mut self)
        ensures { self.new ≡ record { gone = self.old.gone; kept = self.old.kept; current = None } }
    {
        if self.is_ready {
            self.spans.clear();
            self.progress = Progress::start();
            self.base = self.at;
            self.is_ready = false;
        }
    }

    // Drops what was given out, where that moves no more bytes than it drops.
    fn shed(&mut self)
        requires { self.old.current ≡ None }
        ensures { self.new ≡ self.old }
    {
        if self.at > 0 && self.at >= self.bytes.len() - self.at {
            self.gone += self.at as u64;
            drop_front(&mut self.bytes, self.at);
            self.at = 0;
            self.base = 0;
        }
    }

    /// Gives out the next whole request. `Ok(false)` says that the bytes that are left hold none, and break no rule;
    /// after a `Protocol` fault each later call answers it again.
    pub fn next_request(&mut self) -> Result<bool, FrameFault>
        ensures next { NextIs self.old result self.new }
        ensures fewer { result ≡ Ok true → length self.new.kept < length self.old.kept }
    {
        self.forget();
        match read_ahead(&self.bytes[self.at..], self.progress, &mut self.spans) {
            Err(_) => {
                self.spans.clear();
                self.progress = Progress::start();
                Err(FrameFault::Memory)
            }
            Ok(Ahead::Request(end)) => {
                self.base = self.at;
                self.at += end;
                self.is_ready = true;
                Ok(true)
            }
            Ok(Ahead::Rest(progress)) => {
                self.progress = progress;
                self.next_by_steps()
            }
        }
    }

    // The same, where no request is given out.
    #[inline(never)]
    fn next_by_steps(&mut self) -> Result<bool, FrameFault>
        requires { self.old.current ≡ None }
        ensures { NextIs self.old result self.new }
    {
        match next_found(&self.bytes[self.at..], self.progress, &mut self.spans) {
            Err(_) => {
                self.spans.clear();
                self.progress = Progress::start();
                Err(FrameFault::Memory)
            }
            Ok((passed, next)) => {
                self.at += passed;
                self.base = self.at;
                match next {
                    Next::Request(end) => {
                        self.at += end;
                        self.is_ready = true;
                        Ok(true)
                    }
                    Next::Broken(rule, place) => {
                        self.spans.clear();
                        self.progress = Progress::start();
                        Err(FrameFault::Protocol {
                            rule,
                            at: self.gone + (self.at + place) as u64,
                        })
                    }
                    Next::Open(progress) => {
                        self.progress = progress;
                        Ok(false)
                    }
                }
            }
        }
    }

    /// The request that `next_request` gave out.
    pub fn current(&self) -> Request<'_>
        requires { IsSome self.now.current }
        ensures { self.now.current ≡ Some result }
    {
        Request {
            bytes: &self.bytes[self.base..],
            spans: self.spans.as_slice(),
        }
    }

    /// How many bytes were fed and not given out.
    pub fn kept(&self) -> usize
        ensures { result ≡ length self.now.kept }
    {
        self.bytes.len() - self.at
    }
}
