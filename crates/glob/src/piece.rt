// The pieces of a pattern.

ghost use Rattle.std.specs.Prelude.{◌≡◌, ◌∷◌, if◌then◌else◌};
ghost use Rattle.glob.specs.Piece.{IsPiece};

use crate::class::read_class;

// What the first piece of a pattern says of a byte.
#[derive(Clone, Copy)]
pub enum Piece {
    // It is `*`.
    Star,
    // It takes the byte, and is of so many bytes.
    Takes(usize),
    // It does not take the byte, or there is none.
    Refuses,
}

fn takes_if(takes: bool, width: usize) -> Piece
    ensures { result ≡ (if takes then Piece.Takes width else Piece.Refuses) }
{
    if takes {
        Piece::Takes(width)
    } else {
        Piece::Refuses
    }
}

// The piece of a backslash: the byte behind it, and the backslash itself at the pattern's end.
fn escaped_piece(rest: &[u8], byte: u8) -> Piece
    ensures { IsPiece (92 ∷ rest.now) byte result }
{
    match rest {
        [next, ..] => takes_if(*next == byte, 2),
        [] => takes_if(byte == b'\\', 1),
    }
}

fn piece_from(first: u8, rest: &[u8], byte: u8) -> Piece
    ensures { IsPiece (first ∷ rest.now) byte result }
{
    match first {
        b'*' => Piece::Star,
        b'?' => Piece::Takes(1),
        b'\\' => escaped_piece(rest, byte),
        b'[' => {
            let verdict = read_class(rest, byte);
            takes_if(verdict.takes, verdict.width + 1)
        }
        itself => takes_if(itself == byte, 1),
    }
}

// Reads the first piece of a pattern.
pub fn first_piece(pattern: &[u8], byte: u8) -> Piece
    ensures { IsPiece pattern.now byte result }
{
    match pattern {
        [first, rest @ ..] => piece_from(*first, rest, byte),
        [] => Piece::Refuses,
    }
}
