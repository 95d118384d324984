//! The lines of a lines event, as a client receives them.
ghost use Rattle.std.specs.Prelude.{◌≡◌, IfOk};
ghost use Rattle.nv_value.specs.Content.{text};
ghost use Rattle.nv_value.specs.View.{content, contents};
ghost use Rattle.nv_subs.specs.Mirrors.{line_in, event_lines};

use nv_lines::{Line, LineList, is_line};
use nv_value::{Bytes, Items, Value};
use std::alloc::AllocError;

// The line that a string is, shared; `None` exactly where it has the byte 10.
fn shared_line(bytes: &Bytes) -> Result<Option<Line>, AllocError>
    ensures { IfOk result (λ line. line ≡ line_in (text bytes.now)) }
{
    if !is_line(bytes.as_slice()) {
        return Ok(None);
    }
    let bytes = bytes.share()?;
    Ok(Some(Line::from_bytes(bytes)))
}

// The line that a value is, shared; `None` exactly where it is none.
fn line_of(value: &Value) -> Result<Option<Line>, AllocError>
    ensures { IfOk result (λ line. line ≡ line_in (content value.now)) }
{
    match value {
        Value::Text(bytes) => shared_line(bytes),
        _ => Ok(None),
    }
}

/// The lines that values are, shared; `None` exactly where one of them isn't a line.
pub fn lines_of(items: &Items) -> Result<Option<LineList>, AllocError>
    ensures { IfOk result (λ lines. lines ≡ event_lines (contents items.now.items)) }
{
    let mut lines = Vec::with_capacity(*items.allocator(), items.len())?;
    for value in items {
        let Some(line) = line_of(value)? else {
            return Ok(None);
        };
        lines.push(line)?;
    }
    Ok(Some(LineList::from_vec(lines)))
}
