//! What answers requests.

ghost use Rattle.std.specs.Prelude.{◌≡◌, ℕ, List, Bool, true, false, IfOk, OnErr};
ghost use Rattle.outside.specs.declared.pacing.Plan.{Plan};
ghost use Rattle.plain_world.specs.Words.{Words};
ghost use Rattle.plain_world.specs.declared.reply.Part.{Part};

use outside::Plan;
use plain_world::{Memory, Reply};
use resp_frames::Request;

/// What a request led to.
#[derive(Drop)]
pub struct Done {
    pub reply: Reply,
    /// Whether the run ends with it.
    pub quit: bool,
}

/// What answers requests, one after the other.
pub trait Server {
    // At a moment a request may be answered by this reply, on the way from one state to another.
    ghost executes: { ℕ → Self → Words → List Part → Self → Type 0 };

    // At a moment the work of a plan is done, on the way from one state to another.
    ghost works: { ℕ → Plan → Self → Self → Type 0 };

    // Whether a request ends the run.
    ghost quits: { Words → Bool };

    // Whether memory was refused, so that nothing is known of it any longer.
    ghost spent: { Self → Bool };

    /// Runs one request, at this moment in milliseconds. `Memory` where memory was refused.
    fn execute(&mut self, request: &Request<'_>, moment: u64) -> Result<Done, Memory>
        ensures executes { IfOk result (λ done. executes moment self.old request.now done.reply self.new) }
        ensures quit { IfOk result (λ done. done.quit ≡ quits request.now) }
        ensures alive { IfOk result (λ done. spent self.new ≡ false) }
        ensures memory { OnErr result (spent self.new ≡ true) };

    /// Does the work of a plan, at this moment in milliseconds. It takes no memory.
    fn background(&mut self, plan: Plan, moment: u64)
        requires { spent self.old ≡ false }
        ensures { works moment plan self.old self.new };
}
