//! Requests are handed to an engine.

ghost use Rattle.std.specs.Prelude.{◌≡◌, false, IfOk};
ghost use Rattle.plain_world.specs.Words.{Words, IsRequest};
ghost use Rattle.resp_frames.specs.Frames.{request_bytes};

use plain_world::{Memory, Reply};
use resp_frames::Feeder;
use serving::Server;
use std::alloc::{AllocError, Global};

const MOST: usize = 4_611_686_018_427_387_904;

/// Hands the request of these bytes to an engine, at this moment in milliseconds. `Memory` where memory was refused.
pub fn execute_bytes<E: Server>(
    alloc: Global,
    engine: &mut E,
    bytes: &[u8],
    moment: u64,
) -> Result<Reply, Memory>
    ensures executes { IfOk result (λ reply. (words : Words) → IsRequest words → bytes.now ≡ request_bytes words → E.executes moment engine.old words reply engine.new) }
    ensures alive { IfOk result (λ reply. E.spent engine.new ≡ false) }
{
    if bytes.len() > MOST {
        return Err(AllocError);
    }
    let mut feeder = Feeder::new(alloc);
    feeder.feed(bytes)?;
    match feeder.next_request() {
        Ok(true) => match engine.execute(&feeder.current(), moment) {
            Ok(done) => Ok(done.reply),
            Err(_) => Err(AllocError),
        },
        // a request that stands whole is given out, unless memory wants
        _ => Err(AllocError),
    }
}
