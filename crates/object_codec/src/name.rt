// The names of the encodings of strings.

ghost use Rattle.std.specs.Prelude.{◌≡◌};
ghost use Rattle.object_codec.specs.Names.{IsNameOf, name_text};

/// The encoding of a string.
#[derive(Clone, Copy, Debug, PartialEq, Eq)]
pub enum Name {
    /// A number of 64 bits with a sign.
    Int,
    /// A text in one block with its header.
    Embstr,
    /// A text in a block of its own.
    Raw,
}

impl Name {
    /// The name that OBJECT ENCODING answers.
    pub fn text(self) -> &'static str
        ensures { result.now ≡ name_text self }
    {
        match self {
            Name::Int => "int",
            Name::Embstr => "embstr",
            Name::Raw => "raw",
        }
    }
}

// The most bytes of a text that is kept with its header.
const EMBEDDED_BYTES: usize = 44;

/// The encoding of a string that was written whole, loaded or counted, and of one that was made raw by a change of a part.
pub fn string_name(text: &[u8], raw: bool) -> Name
    ensures { IsNameOf text.now raw result }
{
    if raw {
        return Name::Raw;
    }
    match int_text::read_i64(text) {
        Some(_) => Name::Int,
        None if text.len() <= EMBEDDED_BYTES => Name::Embstr,
        None => Name::Raw,
    }
}
