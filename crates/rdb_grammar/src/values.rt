//! Values, by their type.

use crate::strings::Chunk;

/// What a collection is; a stream counts as one here.
#[derive(Clone, Copy, Debug)]
pub enum Collection {
    /// A list.
    List,
    /// A set.
    Set,
    /// A hash.
    Hash,
    /// A sorted set.
    SortedSet,
    /// A stream.
    Stream,
}

/// What is packed in a string.
#[derive(Clone, Copy, Debug)]
pub enum Packed {
    /// Whole numbers, as an intset: members of a set.
    Numbers,
    /// Texts, as a listpack: members of a set, or elements of a list's node.
    Texts,
    /// Fields, each with its value behind it, as a listpack.
    Pairs,
    /// Members, each with the text of its score behind it, as a listpack.
    Scores,
}

/// How a stream is written: each type has parts that those before it have not.
#[derive(Clone, Copy, Debug)]
pub enum StreamType {
    /// The last id alone, and how many entries there are.
    First,
    /// Beside it the greatest deleted id and how many entries were added.
    Second,
    /// Beside these when each consumer was active.
    Third,
}

/// How a collection stands behind its key.
#[derive(Clone, Copy, Debug)]
pub enum Layout {
    /// So many elements, one behind the other: strings, pairs of strings for a hash, strings with their scores for a sorted set.
    Elements(Collection, u64),
    /// A string that it is packed in: a set, a hash or a sorted set.
    Packed(Packed),
    /// A list in so many nodes, each a container and a string.
    Nodes(u64),
    /// A stream of a type: its nodes, its marks and its groups.
    Stream(StreamType),
}

/// A value of a file.
#[derive(Clone, Copy, Debug)]
pub enum FileValue<'a> {
    /// A string.
    Text(Chunk<'a>),
    /// A collection, which follows.
    Laid(Layout),
}

/// What the string of a list's node is.
#[derive(Clone, Copy)]
pub enum Container {
    /// An element.
    Plain,
    /// A listpack of elements.
    Packed,
}
