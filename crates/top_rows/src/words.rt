//! The words of a command line.

use std::alloc::{AllocError, Global};

// A word. The empty one is spelled `\e`.
fn plain(word: &str) -> &str {
    if word == "\\e" { "" } else { word }
}

/// The words of a line; none where it has nothing behind its name.
pub fn words(alloc: Global, rest: &str) -> Result<Vec<String>, AllocError> {
    let mut all = Vec::new(alloc);
    if rest.is_empty() {
        return Ok(all);
    }
    for word in rest.split(' ') {
        all.push(String::from_str(alloc, plain(word))?)?;
    }
    Ok(all)
}
