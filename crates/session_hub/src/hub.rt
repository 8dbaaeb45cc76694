//! The bytes of an input in pieces: which are of heads, and which are a session's.

ghost use Rattle.std.specs.Prelude.{◌≡◌, ◌≤◌, ◌<◌, [], length};
ghost use Rattle.session_hub.specs.Standing.{AtHead, stop_of};
ghost use Rattle.session_hub.specs.Stepping.{IsAtHead, HeadIs, Steps, count_of, stop_told};

use arrayvec::ArrayVec;
use byteorder::{ByteOrder, LittleEndian};
use std::marker::Model;

/// How long the head of a piece is: the number of its session in two bytes, and how many bytes it brings in four, the
/// lowest first.
const HEAD: usize = 6;

/// Where a hub stands.
#[derive(Clone, Copy)]
pub enum Place {
    /// In a head that isn't whole, or before any piece.
    Head,
    /// In a piece of this session, of which so many bytes are wanting.
    Piece { session: u16, left: u32 },
    /// Behind a number that no session has.
    Unknown,
}

/// What a head tells, as far as it is there.
#[derive(Clone, Copy)]
pub enum Headed {
    /// It isn't whole.
    Open,
    /// No session has its number.
    Unknown,
    /// A piece of this session, of so many bytes.
    Whole { session: u16, long: u32 },
}

/// What the next bytes of the input are.
#[derive(Clone, Copy, Debug, PartialEq, Eq)]
pub enum Step {
    /// The first byte is of a head.
    Head,
    /// The first bytes, so many, are this session's.
    Bytes { session: u16, count: usize },
    /// A number that no session has ends in the first byte, or stands before it: no byte behind that number is any session's.
    Unknown,
}

/// Where the input stops.
#[derive(Clone, Copy, Debug, PartialEq, Eq)]
pub enum Stopped {
    /// Behind whole pieces.
    Outside,
    /// Inside a piece or its head.
    Inside,
    /// Behind a number that no session has.
    Unknown,
}

/// Takes an input in pieces, chunk by chunk, however the pieces are cut.
///
/// Contracts see how many sessions there are, which have the numbers from 0 on, and what stands open behind the whole pieces
/// of the bytes that it has passed over.
#[derive(Drop)]
pub struct Hub {
    sessions: usize,
    // the bytes of a head that isn't whole
    head: ArrayVec<u8, HEAD>,
    place: Place,
}

impl Model for Hub {
    ghost use Rattle.session_hub.specs.Standing.{CanStand};
    ghost use Rattle.session_hub.specs.Stepping.{Hubbed, standing_of};

    ghost Value = { Hubbed };

    ghost view = { λ h. record { sessions = h.sessions; standing = standing_of h.place h.head.items } };

    ghost invariant = { λ h. CanStand h.sessions (standing_of h.place h.head.items) };
}

// What a head tells.
fn read_head(head: &[u8], sessions: usize) -> Headed
    requires { length head.now ≤ 6 }
    ensures { HeadIs sessions head.now result }
{
    if head.len() < 2 {
        return Headed::Open;
    }
    let session = LittleEndian::read_u16(head);
    if session as usize >= sessions {
        return Headed::Unknown;
    }
    if head.len() < HEAD {
        return Headed::Open;
    }
    Headed::Whole {
        session,
        long: LittleEndian::read_u32(&head[2..]),
    }
}

impl Hub {
    /// A hub of so many sessions, before any piece.
    pub fn new(sessions: usize) -> Hub
        ensures { result ≡ record { sessions = sessions; standing = AtHead [] } }
    {
        Hub {
            sessions,
            head: ArrayVec::new(),
            place: Place::Head,
        }
    }

    /// Passes over the first of the next bytes, and tells what they are.
    pub fn step(&mut self, chunk: &[u8]) -> Step
        requires { 0 < length chunk.now }
        ensures { Steps self.old chunk.now result self.new }
    {
        match self.place {
            Place::Head => self.step_head(chunk),
            Place::Piece { session, left } => {
                let count = chunk.len().min(left as usize);
                if count == left as usize {
                    self.head.clear();
                    self.place = Place::Head;
                } else {
                    self.place = Place::Piece {
                        session,
                        left: left - count as u32,
                    };
                }
                Step::Bytes { session, count }
            }
            Place::Unknown => Step::Unknown,
        }
    }

    // The same in a head.
    fn step_head(&mut self, chunk: &[u8]) -> Step
        requires some { 0 < length chunk.now }
        requires head { IsAtHead self.old.standing }
        ensures { Steps self.old chunk.now result self.new }
    {
        self.head.push(chunk[0]);
        match read_head(&self.head, self.sessions) {
            Headed::Open => Step::Head,
            Headed::Unknown => {
                self.place = Place::Unknown;
                Step::Unknown
            }
            Headed::Whole { session, long } => {
                self.head.clear();
                if long > 0 {
                    self.place = Place::Piece {
                        session,
                        left: long,
                    };
                }
                Step::Head
            }
        }
    }

    /// Where the bytes stop that it has passed over.
    pub fn stopped(&self) -> Stopped
        ensures { stop_told result ≡ stop_of self.now.standing }
    {
        match self.place {
            Place::Head => if self.head.is_empty() {
                Stopped::Outside
            } else {
                Stopped::Inside
            },
            Place::Piece { .. } => Stopped::Inside,
            Place::Unknown => Stopped::Unknown,
        }
    }
}
