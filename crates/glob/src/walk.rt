// Walks along a pattern and a text.

ghost use Rattle.std.specs.Prelude.{◌↔◌, [], IsTrue};
ghost use Rattle.glob.specs.Pattern.{Matches};

use crate::piece::{Piece, first_piece};

// A place in the pattern and one in the text.
#[derive(Clone, Copy)]
struct Place {
    pattern: usize,
    text: usize,
}

/// Whether a pattern matches the whole of a text, as the patterns of the Redis command KEYS do.
///
/// `*` takes any bytes and `?` one byte. `\` takes the next byte as itself; at the pattern's end it is itself. `[` begins a
/// class, which ends with `]` or with the pattern, and takes one byte; `^` directly behind the `[` negates it. In a class `\`
/// takes the next byte as itself, and x-y is a range, whose ends may be swapped. An empty class takes no byte and a negated
/// empty one takes each. Every other byte takes itself.
///
/// It takes time in proportion to the product of both lengths at most, and no memory.
pub fn matches(pattern: &[u8], text: &[u8]) -> bool
    ensures { IsTrue result ↔ Matches pattern.now text.now }
{
    let mut place = Place {
        pattern: 0,
        text: 0,
    };
    // Where the walk goes on when the byte at hand is not taken: behind the last `*`, at the first byte that it has not been
    // given yet. An earlier `*` never has to take more, since the last one can take all that is left.
    let mut last_star: Option<Place> = None;
    while place.text < text.len() {
        match first_piece(&pattern[place.pattern..], text[place.text]) {
            Piece::Star => {
                place.pattern += 1;
                last_star = Some(place);
            }
            Piece::Takes(width) => {
                place.pattern += width;
                place.text += 1;
            }
            Piece::Refuses => match last_star {
                None => return false,
                Some(star) => {
                    place = Place {
                        pattern: star.pattern,
                        text: star.text + 1,
                    };
                    last_star = Some(place);
                }
            },
        }
    }
    is_stars(&pattern[place.pattern..])
}

// Whether a pattern matches the empty text.
fn is_stars(pattern: &[u8]) -> bool
    ensures { IsTrue result ↔ Matches pattern.now [] }
{
    pattern.iter().all(|byte| *byte == b'*')
}
