//! Rows as cells, that are copied to buffers.
ghost use Rattle.std.specs.Prelude.{◌≡◌, ◌+◌, ◌≤◌, length, option_map};
ghost use Rattle.iv_shown.specs.Cells.{AreCopied, placed, room_after, row_cells, row_text, text_of};

use crate::cell::{Cell, cell_of, text_of};
use iv_expr::Row;
use iv_value::Value;

/// How many rows were copied, and how many bytes their texts have.
#[repr(C)]
#[derive(Clone, Copy, Debug, Drop, PartialEq, Eq)]
pub struct TakenRows {
    pub rows: u64,
    pub bytes: u64,
}

// How much room for bytes is left after these values, where it is enough.
fn room_after(values: &[Value], room: usize) -> Option<usize>
    ensures { result ≡ room_after room values.now }
{
    let mut left = room;
    let mut rest = values;
    while let Some((value, others)) = rest.split_first() {
        left = left.checked_sub(text_of(value).len())?;
        rest = others;
    }
    Some(left)
}

// Copies the cells of these values, from this place of the buffer on.
fn copy_cells(values: &[Value], cells: &mut [Cell], from: usize)
    requires { from + length values.now ≤ length cells.old }
    ensures cells { cells.new ≡ placed cells.old from (row_cells values.now) }
    ensures length { length cells.new ≡ length cells.old }
{
    let mut at = from;
    let mut rest = values;
    while let Some((value, others)) = rest.split_first() {
        cells[at] = cell_of(value);
        at += 1;
        rest = others;
    }
}

// Copies bytes, from this place of the buffer on.
fn copy_bytes(bytes: &[u8], buffer: &mut [u8], from: usize)
    requires { from + length bytes.now ≤ length buffer.old }
    ensures bytes { buffer.new ≡ placed buffer.old from bytes.now }
    ensures length { length buffer.new ≡ length buffer.old }
{
    buffer[from..from + bytes.len()].copy_from_slice(bytes);
}

// Copies the texts of these values, from this place of the buffer on.
fn copy_texts(values: &[Value], buffer: &mut [u8], from: usize)
    requires { from + length (row_text values.now) ≤ length buffer.old }
    ensures bytes { buffer.new ≡ placed buffer.old from (row_text values.now) }
    ensures length { length buffer.new ≡ length buffer.old }
{
    let mut at = from;
    let mut rest = values;
    while let Some((value, others)) = rest.split_first() {
        let text = text_of(value);
        copy_bytes(text, buffer, at);
        at += text.len();
        rest = others;
    }
}

/// Copies rows from the front, as many as have room: their cells to one buffer, and the bytes of their texts to another.
pub fn copy_rows(rows: &[Row], cells: &mut [Cell], texts: &mut [u8]) -> TakenRows
    ensures { AreCopied rows.now cells.old cells.new texts.old texts.new result }
{
    let mut taken = 0u64;
    let mut at = 0usize;
    let mut room = texts.len();
    let mut rest = rows;
    while let Some((row, others)) = rest.split_first() {
        let values = row.values();
        if values.len() > cells.len() - at {
            break;
        }
        let Some(left) = room_after(values, room) else {
            break;
        };
        copy_cells(values, cells, at);
        copy_texts(values, texts, texts.len() - room);
        at += values.len();
        room = left;
        taken += 1;
        rest = others;
    }
    TakenRows {
        rows: taken,
        bytes: (texts.len() - room) as u64,
    }
}
