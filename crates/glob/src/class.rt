// Classes of bytes.

ghost use Rattle.std.specs.Prelude.{◌≡◌, ◌≤◌, ◌<◌, length, drop};
ghost use Rattle.glob.specs.Class.{one, range, first_member, is_within, holds_behind, rest_behind, class_takes, behind_class};

// A member of a class: the bytes from the one to the other, and how many bytes of the pattern it takes.
#[derive(Clone, Copy)]
pub struct Member {
    pub least: u8,
    pub greatest: u8,
    pub width: usize,
}

// What a class says of a byte, and how many bytes of the pattern it takes.
#[derive(Clone, Copy)]
pub struct Verdict {
    pub takes: bool,
    pub width: usize,
}

fn one_byte(byte: u8, width: usize) -> Member
    ensures { result ≡ one byte width }
{
    Member {
        least: byte,
        greatest: byte,
        width,
    }
}

fn byte_range(first: u8, last: u8) -> Member
    ensures { result ≡ range first last }
{
    Member {
        least: first.min(last),
        greatest: first.max(last),
        width: 3,
    }
}

// The member that stands first.
fn read_member(members: &[u8]) -> Member
    requires { 0 < length members.now }
    ensures member { result ≡ first_member members.now }
    ensures some { 0 < result.width }
    ensures room { result.width ≤ length members.now }
{
    match members {
        [b'\\', byte, ..] => one_byte(*byte, 2),
        [first, b'-', last, ..] => byte_range(*first, *last),
        _ => one_byte(members[0], 1),
    }
}

fn holds(member: Member, byte: u8) -> bool
    ensures { result ≡ is_within member byte }
{
    member.least <= byte && byte <= member.greatest
}

// Looks for the byte among members, up to `]` or the end.
fn read_members(members: &[u8], byte: u8) -> Verdict
    ensures takes { result.takes ≡ holds_behind 0 members.now byte }
    ensures room { result.width ≤ length members.now }
    ensures rest { drop result.width members.now ≡ rest_behind 0 members.now }
{
    let mut at = 0;
    let mut takes = false;
    while at < members.len() {
        if members[at] == b']' {
            return Verdict {
                takes,
                width: at + 1,
            };
        }
        let member = read_member(&members[at..]);
        takes = holds(member, byte) || takes;
        at += member.width;
    }
    Verdict { takes, width: at }
}

// Reads a class from behind its `[`, and says whether it takes the byte.
pub fn read_class(class: &[u8], byte: u8) -> Verdict
    ensures takes { result.takes ≡ class_takes class.now byte }
    ensures room { result.width ≤ length class.now }
    ensures rest { drop result.width class.now ≡ behind_class class.now }
{
    match class {
        [b'^', members @ ..] => {
            let verdict = read_members(members, byte);
            Verdict {
                takes: !verdict.takes,
                width: verdict.width + 1,
            }
        }
        _ => read_members(class, byte),
    }
}
