//! The words of ZADD: options in front, then scores with their members.

ghost use Rattle.std.specs.Prelude.{◌≡◌, ◌<◌, ◌≤◌, ◌+◌, ◌-◌, length, drop, false, true, Ok};
ghost use Rattle.plain_model.specs.ZsetWords.{add_words, clash, options_in_front, scores_read};
ghost use Rattle.command_words.specs.Readings.{Gathers, Passes, ReadsZset, Tells, word_at, front_options, scored};

use crate::ReadingFault;
use crate::kinds::WRONG_NUMBER;
use crate::options::Options;
use crate::words::{plain, score};
use crate::zset_options::{clash, no_add_options};
use plain_model::{AddOptions, Refusal, ScoreList, ZsetCommand};
use resp_frames::Request;
use std::alloc::Global;

const BROKEN: ReadingFault = ReadingFault::Refused(Refusal::Syntax);

// The options in front of the scores, and the place of the first word behind them.
fn options_in_front(request: &Request<'_>) -> (AddOptions, usize)
    requires { 2 ≤ length request.now }
    ensures says { front_options (drop 2 request.now) ≡ Ok result.0 }
    ensures behind { result.1 ≡ options_in_front (drop 2 request.now) + 2 }
    ensures within { result.1 ≤ length request.now }
{
    let mut options = no_add_options();
    let mut index = 2;
    while index < request.len() {
        match options.with_option(request, index) {
            Ok((next, _)) => {
                options = next;
                index += 1;
            }
            Err(_) => return (options, index),
        }
    }
    (options, index)
}

// Whether the words from a place on are scores with their members.
fn check_scores(request: &Request<'_>, from: usize) -> Result<(), ReadingFault>
    requires { from ≤ length request.now }
    ensures { Passes (scores_read (drop from request.now)) result }
{
    let mut index = from;
    while index < request.len() {
        score(request, index)?;
        if request.len() - index < 2 {
            return Err(BROKEN);
        }
        index += 2;
    }
    Ok(())
}

// The scores with their members from a place on. Where there is no memory, the words that are left are looked at too, since
// a refusal comes first.
fn gather_scores<'r>(
    alloc: Global,
    request: &'r Request<'_>,
    from: usize,
) -> Result<ScoreList<'r>, ReadingFault>
    requires { from ≤ length request.now }
    ensures { Gathers (scores_read (drop from request.now)) result }
{
    let mut list = ScoreList::new(alloc);
    let mut index = from;
    while index < request.len() {
        let n = score(request, index)?;
        if request.len() - index < 2 {
            return Err(BROKEN);
        }
        if list.push(n, plain(request, index + 1)).is_err() {
            check_scores(request, from)?;
            return Err(ReadingFault::Memory);
        }
        index += 2;
    }
    Ok(list)
}

// What INCR adds: one score with its member, and no more.
fn increment<'r>(
    request: &'r Request<'_>,
    options: AddOptions,
    from: usize,
) -> Result<ZsetCommand<'r>, ReadingFault>
    requires some { 2 ≤ length request.now }
    requires from { from < length request.now }
    requires incr { options.incr ≡ true }
    requires allowed { clash options.rules ≡ false }
    ensures { Tells (scored (word_at request.now 1) options (drop from request.now)) result }
{
    if request.len() - from != 2 {
        check_scores(request, from)?;
        return Err(BROKEN);
    }
    let n = score(request, from)?;
    Ok(ZsetCommand::ZIncr(
        plain(request, 1),
        options.rules,
        n,
        plain(request, from + 1),
    ))
}

// The scores with their members from a place on, under these options.
fn scored<'r>(
    alloc: Global,
    request: &'r Request<'_>,
    options: AddOptions,
    from: usize,
) -> Result<ZsetCommand<'r>, ReadingFault>
    requires some { 2 ≤ length request.now }
    requires from { from ≤ length request.now }
    ensures { ReadsZset (scored (word_at request.now 1) options (drop from request.now)) result }
{
    if clash(options.rules) || from == request.len() {
        check_scores(request, from)?;
        return Err(BROKEN);
    }
    if options.incr {
        return increment(request, options, from);
    }
    let pairs = gather_scores(alloc, request, from)?;
    Ok(ZsetCommand::ZAdd(plain(request, 1), options.rules, options.ch, pairs))
}

/// ZADD: a key, options in front, then scores with their members.
pub fn add<'r>(alloc: Global, request: &'r Request<'_>) -> Result<ZsetCommand<'r>, ReadingFault>
    requires { 0 < length request.now }
    ensures { ReadsZset (add_words (drop 1 request.now)) result }
{
    if request.len() < 4 {
        return Err(WRONG_NUMBER);
    }
    let (options, from) = options_in_front(request);
    scored(alloc, request, options, from)
}
