//! Words that are drawn.

ghost use Rattle.std.specs.Prelude.{◌≡◌, ◌≤◌, ◌^◌, length, OnOk};
ghost use Rattle.plain_world.specs.Words.{IsRequest};
ghost use Rattle.resp_frames.specs.Frames.{request_bytes};
ghost use Rattle.rand_pcg.specs.Lcg.{advance};
ghost use Rattle.rand_pcg.specs.Pcg.{multiplier_64};
ghost use Rattle.generator.specs.Generated.{drawn_words};

use crate::commands::{kind_of, put_command};
use rand_core::utils::NextWord;
use rand_pcg::Pcg32;
use std::alloc::AllocError;

/// Draws two words, and puts the bytes of the request that they say. What stood in the bytes is cleared.
pub fn draw_request(dice: &mut Pcg32, bytes: &mut Vec<u8>) -> Result<(), AllocError>
    ensures request { OnOk result (bytes.new.items ≡ request_bytes (drawn_words dice.old)) }
    ensures sound { IsRequest (drawn_words dice.old) }
    ensures short { length (request_bytes (drawn_words dice.old)) ≤ 2 ^ 62 }
    ensures dice { dice.new ≡ advance 64 multiplier_64 2 dice.old }
{
    let first = dice.next_word() as u64;
    let second = dice.next_word() as u64;
    put_command(bytes, kind_of(first), first / 16 % 1000, second)
}
