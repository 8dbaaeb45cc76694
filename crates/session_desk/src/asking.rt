//! What a request asks of its session.

ghost use Rattle.std.specs.Prelude.{◌≡◌, ◌≢◌, ◌==◌, false, length, IfOk, Err, if◌then◌else◌};
ghost use Rattle.plain_model.specs.Meant.{is_quit, asks_to_quit};
ghost use Rattle.plain_sessions.specs.Transactions.{asked_of, Common, wrong_words};
ghost use Rattle.session_desk.specs.Asking.{asked_as, wrong_told, BecomesOf};

use command_table::{ReadingFault, read};
use command_words::words::is_word;
use plain_model::{Command, ConnectionCommand, Memory, Refusal};
use resp_frames::Request;
use std::alloc::{AllocError, Global};

/// What a request asks of its session (Redis documentation, "Transactions").
#[derive(Clone, Copy)]
pub enum Asks {
    Multi,
    Exec,
    Discard,
    /// The words behind the first are keys.
    Watch,
    /// One of these with a wrong number of words.
    Misnumbered,
    /// Any other command.
    Common,
}

/// What becomes inside MULTI of a request that is none of these.
#[derive(Clone, Copy)]
pub enum Queueing {
    /// It is QUIT.
    Quits,
    /// It waits for EXEC.
    Waits,
    /// Its name or the number of its words is wrong.
    Wrong(Refusal),
}

/// What a request asks of its session.
pub fn asks_of(request: &Request<'_>) -> Asks
    ensures is { asked_of request.now ≡ asked_as result request.now }
    ensures calm { asked_of request.now ≢ Common → asks_to_quit request.now ≡ false }
{
    prove!(request.len() > 0);
    let name = request.word(0);
    if is_word(name, b"multi") {
        alone(request, Asks::Multi)
    } else if is_word(name, b"exec") {
        alone(request, Asks::Exec)
    } else if is_word(name, b"discard") {
        alone(request, Asks::Discard)
    } else if is_word(name, b"watch") {
        if request.len() > 1 {
            Asks::Watch
        } else {
            Asks::Misnumbered
        }
    } else {
        Asks::Common
    }
}

// This, where no word stands behind the name.
fn alone(request: &Request<'_>, asks: Asks) -> Asks
    ensures { result ≡ (if length request.now == 1 then asks else Asks.Misnumbered) }
{
    if request.len() == 1 {
        asks
    } else {
        Asks::Misnumbered
    }
}

// Whether a command is QUIT.
fn quits(command: &Command<'_>) -> bool
    ensures { result ≡ is_quit command.now }
{
    matches!(command, Command::Connection(ConnectionCommand::Quit))
}

// Drops a command, apart from all else that its caller holds: the variants are many, and a proof goes through each.
fn discard(_command: Command<'_>) {}

// What becomes of a request that is refused.
fn refused(refusal: Refusal) -> Queueing
    ensures wrong { wrong_words (Err refusal) ≡ wrong_told result }
    ensures calm { result ≢ Queueing.Quits }
{
    match refusal {
        Refusal::UnknownCommand => Queueing::Wrong(refusal),
        Refusal::WrongNumberOfArguments => Queueing::Wrong(refusal),
        _ => Queueing::Waits,
    }
}

/// What becomes inside MULTI of a request that is none of the session's own. `Memory` where memory was refused.
pub fn queueing_of(alloc: Global, request: &Request<'_>) -> Result<Queueing, Memory>
    ensures { IfOk result (λ queueing. BecomesOf request.now queueing) }
{
    match read(alloc, request) {
        Ok(command) => {
            let ends = quits(&command);
            discard(command);
            if ends {
                Ok(Queueing::Quits)
            } else {
                Ok(Queueing::Waits)
            }
        }
        Err(ReadingFault::Refused(refusal)) => Ok(refused(refusal)),
        Err(ReadingFault::Memory) => Err(AllocError),
    }
}
