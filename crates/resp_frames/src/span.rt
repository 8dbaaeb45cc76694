//! Where words stand.

/// Where a word stands in the bytes of its request.
#[derive(Clone, Copy, Default)]
pub struct Span {
    pub start: usize,
    pub len: usize,
}

/// The words of a request.
pub type Spans = Vec<Span>;
