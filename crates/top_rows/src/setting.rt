//! Lines that say what a run is given.

use crate::case::{Case, Row};
use crate::words::words;
use bstr::ByteSlice;
use outside::Plan;
use row_text::{number, numbers, spelled, spelled_word};
use std::alloc::{AllocError, Global};

// The bytes that a text spells, with the case's filler for each `~`.
fn filled(case: &Case, alloc: Global, text: &str) -> Result<Vec<u8>, AllocError> {
    let bytes = spelled(alloc, text)?;
    if case.filler.is_empty() {
        return Ok(bytes);
    }
    bytes
        .as_slice()
        .replace(alloc, b"~", case.filler.as_slice())
}

// The bytes of a reply, whose last line end isn't spelled.
fn reply(case: &Case, alloc: Global, text: &str) -> Result<Vec<u8>, AllocError> {
    let mut bytes = filled(case, alloc, text)?;
    if !text.is_empty() {
        bytes.extend_from_slice(b"\r\n")?;
    }
    Ok(bytes)
}

// A request of the words with a space between each two.
fn request(alloc: Global, line: &str) -> Result<Vec<u8>, AllocError> {
    let count = line.split(' ').count();
    let mut bytes = Vec::new(alloc);
    bytes.extend_from_slice(format!(in alloc; "*{count}\r\n")?.as_bytes())?;
    for word in line.split(' ') {
        let word = spelled_word(alloc, word)?;
        let len = word.len();
        bytes.extend_from_slice(format!(in alloc; "${len}\r\n")?.as_bytes())?;
        bytes.extend_from_slice(word.as_slice())?;
        bytes.extend_from_slice(b"\r\n")?;
    }
    Ok(bytes)
}

// What is asked, and what stands behind an arrow, which is answered.
fn parts(line: &str) -> (&str, &str) {
    line.split_once(" -> ").unwrap_or((line, ""))
}

// The row of bytes and what is answered to them.
fn row_of(case: &Case, alloc: Global, line: &str) -> Result<Row, AllocError> {
    let (asked, told) = parts(line);
    Ok(Row {
        request: filled(case, alloc, asked)?,
        reply: reply(case, alloc, told)?,
    })
}

// The row of a request's words and its reply.
fn asked(case: &Case, alloc: Global, line: &str) -> Result<Row, AllocError> {
    let (words, told) = parts(line);
    Ok(Row {
        request: request(alloc, words)?,
        reply: reply(case, alloc, told)?,
    })
}

// The row with a number's text for each `#`.
fn numbered(alloc: Global, row: &Row, number: u64) -> Result<Row, AllocError> {
    let shown = format!(in alloc; "{number:03}")?;
    let shown = shown.as_bytes();
    Ok(Row {
        request: row.request.as_slice().replace(alloc, b"#", shown)?,
        reply: row.reply.as_slice().replace(alloc, b"#", shown)?,
    })
}

// Adds a row, at its moment where one is said.
fn add(case: &mut Case, row: Row) -> Result<(), AllocError> {
    if let Some(moment) = case.moment {
        case.moments.push(moment)?;
    }
    case.rows.push(row)?;
    Ok(())
}

// Adds a row for each number from one on, by a stride.
fn repeat(
    case: &mut Case,
    alloc: Global,
    row: &Row,
    from: u64,
    count: u64,
    stride: u64,
) -> Result<(), AllocError> {
    for index in 0..count {
        let number = from.wrapping_add(index.wrapping_mul(stride));
        add(case, numbered(alloc, row, number)?)?;
    }
    Ok(())
}

// Adds the rows of a line: `FROM COUNT STRIDE ROW`.
fn repeat_line(case: &mut Case, alloc: Global, rest: &str) -> Result<(), AllocError> {
    let mut words = rest.splitn(4, ' ');
    match (words.next(), words.next(), words.next(), words.next()) {
        (Some(from), Some(count), Some(stride), Some(line)) => {
            let row = row_of(case, alloc, line)?;
            repeat(
                case,
                alloc,
                &row,
                number(from),
                number(count),
                number(stride),
            )
        }
        _ => Ok(()),
    }
}

// So many steps, as many as fit.
fn steps(number: u64) -> u32 {
    u32::try_from(number).unwrap_or(u32::MAX)
}

// Adds plans of steps: `COUNT REHASH DEFRAG EXPIRE`.
fn plan(case: &mut Case, given: &[u64]) -> Result<(), AllocError> {
    if let [count, rehash, defrag, expire] = given {
        for _ in 0..*count {
            case.plans.push(Plan {
                rehash: steps(*rehash),
                defrag: steps(*defrag),
                expire: steps(*expire),
            })?;
        }
    }
    Ok(())
}

// Says the moment of the rows that follow. The first is also that of the start.
fn at(case: &mut Case, moment: u64) -> Result<(), AllocError> {
    if case.moments.is_empty() {
        case.moments.push(moment)?;
    }
    case.moment = Some(moment);
    Ok(())
}

// How many bytes each take gives.
fn pieces(alloc: Global, given: &[u64]) -> Result<Vec<usize>, AllocError> {
    let mut all = Vec::new(alloc);
    for number in given {
        all.push(*number as usize)?;
    }
    Ok(all)
}

// A line of numbers, and whether it is one.
fn numbers_line(
    case: &mut Case,
    alloc: Global,
    name: &str,
    rest: &str,
) -> Result<bool, AllocError> {
    let given = numbers(alloc, rest)?;
    match name {
        "host" => case.host = given,
        "reads" => case.reads = given,
        "writes" => case.writes = given,
        "moments" => case.moments = given,
        "pieces" => case.pieces = pieces(alloc, given.as_slice())?,
        "plan" => plan(case, given.as_slice())?,
        "at" => at(case, number(rest))?,
        "fill" => case.filler = vec![in alloc; b'v'; number(rest) as usize]?,
        "room" => case.room = number(rest) as usize,
        "notes" => case.notes = number(rest) as usize,
        _ => return Ok(false),
    }
    Ok(true)
}

// The one row that takes the place of all.
fn stream(case: &mut Case, alloc: Global, rest: &str) -> Result<(), AllocError> {
    case.rows = Vec::new(alloc);
    let row = row_of(case, alloc, rest)?;
    add(case, row)
}

// A line of rows, words or a file, and whether it is one.
fn bytes_line(case: &mut Case, alloc: Global, name: &str, rest: &str) -> Result<bool, AllocError> {
    match name {
        "ask" => {
            let row = asked(case, alloc, rest)?;
            add(case, row)?;
        }
        "refused" => {
            let row = asked(case, alloc, rest)?;
            case.refused.push(row)?;
        }
        "in" => {
            let row = row_of(case, alloc, rest)?;
            add(case, row)?;
        }
        "each" => repeat_line(case, alloc, rest)?,
        "stream" => stream(case, alloc, rest)?,
        "file" => case.file = Some(spelled(alloc, rest)?),
        "words" => case.words = words(alloc, rest)?,
        _ => return Ok(false),
    }
    Ok(true)
}

/// Takes a line that says what a run is given, and answers whether it is one.
pub fn set(case: &mut Case, alloc: Global, line: &str) -> Result<bool, AllocError> {
    let (name, rest) = line.split_once(' ').unwrap_or((line, ""));
    if bytes_line(case, alloc, name, rest)? {
        return Ok(true);
    }
    numbers_line(case, alloc, name, rest)
}
