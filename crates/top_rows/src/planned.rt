//! A run with planned work between its requests answers as the same run without.

use crate::case::Case;
use crate::running::{Came, ran};
use outside::Plan;
use rand_core::Rng;
use rand_pcg::Pcg32;
use std::alloc::{AllocError, Global};

// How many keys are named.
const KEYS: u64 = 61;

// Adds the request of a number, and a line end behind it: mostly SET with a value of up to 640 bytes and a deadline, then
// GET, DEL and others.
fn push_request(alloc: Global, stream: &mut Vec<u8>, number: u64) -> Result<(), AllocError> {
    let key = number.wrapping_mul(7) % KEYS;
    let line = match number % 8 {
        0 => format!(in alloc; "GET k{key}\n")?,
        1 => format!(in alloc; "DEL k{key}\n")?,
        2 => format!(in alloc; "PTTL k{key}\n")?,
        3 => format!(in alloc; "DBSIZE\n")?,
        4 => format!(in alloc; "SET k{key} {number} PX {key}\n")?,
        _ => format!(in alloc; "SET k{key} x PX {number}\nSETRANGE k{key} {number} y\n")?,
    };
    stream.extend_from_slice(line.as_bytes())
}

// So many requests.
fn stream_of(alloc: Global, count: u64) -> Result<Vec<u8>, AllocError> {
    let mut stream = Vec::new(alloc);
    for number in 0..count {
        push_request(alloc, &mut stream, number)?;
    }
    Ok(stream)
}

// A number of steps below a bound; none for the bound 0.
fn steps(dice: &mut Pcg32, bound: u32) -> u32 {
    if bound == 0 {
        return 0;
    }
    dice.next_u32() % bound
}

// What comes of the requests at moments that rise, where fewer steps of each kind than a bound are planned after each.
fn answered(
    alloc: Global,
    stream: &[u8],
    dice: &mut Pcg32,
    count: u64,
    bound: u32,
) -> Result<Came, AllocError> {
    let mut case = Case::new(alloc);
    for number in 0..count {
        case.plans.push(Plan {
            rehash: steps(dice, bound),
            defrag: steps(dice, bound),
            expire: steps(dice, bound),
        })?;
        case.moments.push(number)?;
    }
    case.room = 100_000;
    ran(alloc, &case, stream, &[])
}

/// Whether so many requests are answered alike without plans and with plans of few steps and many.
pub fn plans_change_no_reply(alloc: Global, count: u64) -> Result<bool, AllocError> {
    let stream = stream_of(alloc, count)?;
    let mut dice = Pcg32::new(61, 7);
    let without = answered(alloc, stream.as_slice(), &mut dice, count, 0)?;
    for bound in [2u32, 4, 4, 41] {
        let with = answered(alloc, stream.as_slice(), &mut dice, count, bound)?;
        if !without.is_same(&with) {
            return Ok(false);
        }
    }
    Ok(without.output.written().len() > 1_000)
}
