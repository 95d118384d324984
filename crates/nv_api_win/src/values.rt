//! What calls on windows answer, as values.
ghost use Rattle.std.specs.Prelude.{◌≡◌, ◌+◌, [], ◌∷◌, map, IfOk};
ghost use Rattle.nv_value.specs.View.{content};
ghost use Rattle.nv_msgpack.specs.Shortest.{HasSpelling};
ghost use Rattle.nv_rpc.specs.Messages.{buffer_handle};
ghost use Rattle.nv_model.specs.Answering.{array_of, natural};
ghost use Rattle.nv_api_win.specs.Windows.{tabpage_handle, window_handle};

use nv_layout::Rect;
use nv_msgpack::handle;
use nv_value::{Value, spelled_length};
use nv_windows::{Window, Windows};
use std::alloc::{AllocError, Global};

// The types of handles as extension values (help: api-types).
const BUFFER: i8 = 0;

const WINDOW: i8 = 1;

const TABPAGE: i8 = 2;

/// The handle of a buffer.
pub fn buffer_value(alloc: Global, number: i64) -> Result<Value, AllocError>
    ensures value { IfOk result (λ value. content value ≡ buffer_handle number) }
    ensures spelled { IfOk result (λ value. HasSpelling (content value)) }
{
    handle(alloc, BUFFER, number)
}

/// The handle of a window.
pub fn window_value(alloc: Global, number: i64) -> Result<Value, AllocError>
    ensures value { IfOk result (λ value. content value ≡ window_handle number) }
    ensures spelled { IfOk result (λ value. HasSpelling (content value)) }
{
    handle(alloc, WINDOW, number)
}

/// The handle of a tabpage.
pub fn tabpage_value(alloc: Global, number: i64) -> Result<Value, AllocError>
    ensures value { IfOk result (λ value. content value ≡ tabpage_handle number) }
    ensures spelled { IfOk result (λ value. HasSpelling (content value)) }
{
    handle(alloc, TABPAGE, number)
}

/// The handles of windows.
pub fn window_list(alloc: Global, numbers: &[i64]) -> Result<Value, AllocError>
    ensures value { IfOk result
        (λ value. content value ≡ array_of (map window_handle numbers.now)) }
    ensures spelled { IfOk result (λ value. HasSpelling (content value)) }
{
    let _ = spelled_length(numbers.len())?;
    let mut items = Vec::with_capacity(alloc, numbers.len())?;
    for number in numbers {
        items.push(window_value(alloc, *number)?)?;
    }
    Ok(Value::List(items))
}

/// The handles of all tabpages, in their order.
pub fn tabpage_list(alloc: Global, windows: &Windows) -> Result<Value, AllocError>
    ensures value { IfOk result (λ value. content value
        ≡ array_of (map (λ t. tabpage_handle t.handle) windows.now.tabpages)) }
    ensures spelled { IfOk result (λ value. HasSpelling (content value)) }
{
    let tabpages = windows.tabpages();
    let _ = spelled_length(tabpages.len())?;
    let mut items = Vec::with_capacity(alloc, tabpages.len())?;
    for tabpage in tabpages {
        items.push(tabpage_value(alloc, tabpage.handle)?)?;
    }
    Ok(Value::List(items))
}

/// A number of at least 0.
pub fn natural_value(number: u32) -> Value
    ensures value { content result ≡ natural number }
    ensures spelled { HasSpelling (content result) }
{
    Value::Int(i64::from(number))
}

// Two integers.
fn pair(alloc: Global, first: Value, second: Value) -> Result<Value, AllocError>
    ensures value { IfOk result
        (λ value. content value ≡ array_of (content first ∷ content second ∷ [])) }
{
    Ok(Value::List(vec![in alloc; first, second]?))
}

/// A cursor: its row from 1, its column from 0.
pub fn cursor_value(alloc: Global, window: &Window) -> Result<Value, AllocError>
    ensures value { IfOk result (λ value. content value
        ≡ array_of (natural (window.now.cursor.row + 1) ∷ natural window.now.cursor.col ∷ [])) }
    ensures spelled { IfOk result (λ value. HasSpelling (content value)) }
{
    let row = Value::Int(i64::from(window.cursor.row) + 1);
    let col = Value::Int(i64::from(window.cursor.col));
    pair(alloc, row, col)
}

/// The row and the column of the first cell of an area.
pub fn corner_value(alloc: Global, area: Rect) -> Result<Value, AllocError>
    ensures value { IfOk result (λ value. content value
        ≡ array_of (natural area.row ∷ natural area.col ∷ [])) }
    ensures spelled { IfOk result (λ value. HasSpelling (content value)) }
{
    pair(
        alloc,
        Value::Int(i64::from(area.row)),
        Value::Int(i64::from(area.col)),
    )
}
