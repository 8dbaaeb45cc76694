//! Commands out of what several words say.

ghost use Rattle.std.specs.Prelude.{◌≡◌, Err};
ghost use Rattle.std.specs.Result.{ForOk, IsOkAnd, MatchResult};

use command_words::ReadingFault;

/// What is made of two parts that words say.
pub fn of_two<A, B, C, F: FnOnce(A, B) -> C>(
    told: Result<(A, B), ReadingFault>,
    make: F,
) -> Result<C, ReadingFault>
    requires { ForOk told (λ a. F.pre make a.0 a.1) }
    ensures { MatchResult told (λ a. IsOkAnd result (F.post make a.0 a.1)) (λ e. result ≡ Err e) }
{
    match told {
        Ok((a, b)) => Ok(make(a, b)),
        Err(fault) => Err(fault),
    }
}

/// What is made of three parts.
pub fn of_three<A, B, C, D, F: FnOnce(A, B, C) -> D>(
    told: Result<(A, B, C), ReadingFault>,
    make: F,
) -> Result<D, ReadingFault>
    requires { ForOk told (λ a. F.pre make a.0 a.1 a.2) }
    ensures { MatchResult told (λ a. IsOkAnd result (F.post make a.0 a.1 a.2)) (λ e. result ≡ Err e) }
{
    match told {
        Ok((a, b, c)) => Ok(make(a, b, c)),
        Err(fault) => Err(fault),
    }
}

/// What is made of four parts.
pub fn of_four<A, B, C, D, E, F: FnOnce(A, B, C, D) -> E>(
    told: Result<(A, B, C, D), ReadingFault>,
    make: F,
) -> Result<E, ReadingFault>
    requires { ForOk told (λ a. F.pre make a.0 a.1 a.2 a.3) }
    ensures { MatchResult told (λ a. IsOkAnd result (F.post make a.0 a.1 a.2 a.3)) (λ e. result ≡ Err e) }
{
    match told {
        Ok((a, b, c, d)) => Ok(make(a, b, c, d)),
        Err(fault) => Err(fault),
    }
}
