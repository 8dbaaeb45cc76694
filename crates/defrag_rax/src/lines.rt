//! The lines of an audit.

ghost use Rattle.std.specs.Prelude.{◌≡◌, ◌++◌, IfOk, OnOk};
ghost use Rattle.std.specs.Fmt.{decimal};
ghost use Rattle.std.specs.List.{flat_map};
ghost use Rattle.defrag_rax.specs.Lines.{row_line};

use crate::rows::AuditRow;
use blocks::Memory;
use itoa::Buffer;
use std::alloc::Global;

// Appends a name, and behind it a number.
fn push_number(text: &mut Vec<u8>, name: &[u8], number: u64) -> Result<(), Memory>
    ensures { OnOk result (text.new.items ≡ text.old.items ++ name.now ++ decimal number) }
{
    let mut buffer = Buffer::new();
    text.extend_from_slice(name)?;
    text.extend_from_slice(buffer.format(number).as_bytes())?;
    Ok(())
}

// Appends the line of a row.
fn push_line(text: &mut Vec<u8>, row: &AuditRow) -> Result<(), Memory>
    ensures { OnOk result (text.new.items ≡ text.old.items ++ row_line row.now) }
{
    push_number(text, b"class ", u64::from(row.size))?;
    push_number(text, b" slabs ", row.slabs)?;
    push_number(text, b" needed ", row.needed)?;
    push_number(text, b" tree ", row.tree)?;
    push_number(text, b" other ", row.other)?;
    text.extend_from_slice(b"\n")?;
    Ok(())
}

/// The lines of these rows, one behind the other: `class S slabs N needed M tree T other O` and LF of each, the numbers in decimal.
/// `Memory` for want of memory alone.
pub fn audit_lines(alloc: Global, rows: &[AuditRow]) -> Result<Vec<u8>, Memory>
    ensures { IfOk result (λ text. text.items ≡ flat_map row_line rows.now) }
{
    let mut text = Vec::new(alloc);
    for row in rows {
        push_line(&mut text, row)?;
    }
    Ok(text)
}
