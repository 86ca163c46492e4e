// The second pass: the text of a table into bytes that have room for it.
ghost use Rattle.std.specs.Prelude.{◌≡◌, ◌/◌, ◌≤◌, ◌<◌, length};
ghost use Rattle.laws.specs.Lists.{put};
ghost use Rattle.lines.specs.Cursors.{HasRoom, Puts, SameBuffer};
ghost use Rattle.text.specs.Writing.{cell_text, line_text, lines_text, cut};
ghost use Rattle.exporter.specs.Promise.{text_in};

use crate::table::Table;
use lines::Cursor;

// Puts a cell: the digits of its value, or nothing for null.
fn put_cell(code: u64, to: &mut Cursor<'_>)
    requires { HasRoom to.old (length (cell_text code)) }
    ensures puts { Puts (cell_text code) to.old to.new }
    ensures same { SameBuffer to.old to.new }
{
    if code != 0 {
        to.decimal(code - 1);
    }
}

// Puts the line of a row: its cells with a comma between two, and the line's end.
fn put_line(row: &[u64], to: &mut Cursor<'_>)
    requires { (0 < length row.now) × HasRoom to.old (length (line_text row.now)) }
    ensures puts { Puts (line_text row.now) to.old to.new }
    ensures same { SameBuffer to.old to.new }
{
    put_cell(row[0], to);
    for code in &row[1..] {
        to.word(b",");
        put_cell(*code, to);
    }
    to.word(b"\r\n");
}

// Puts the lines of rows of so many cells.
fn put_rows(cells: &[u64], width: usize, to: &mut Cursor<'_>)
    requires { (0 < width)
        × HasRoom to.old (length (lines_text (cut (length cells.now / width) width cells.now))) }
    ensures puts { Puts (lines_text (cut (length cells.now / width) width cells.now)) to.old to.new }
    ensures same { SameBuffer to.old to.new }
{
    for row in cells.chunks_exact(width) {
        put_line(row, to);
    }
}

// Puts the text of a table into the front of the bytes: its header, then row by row.
pub fn put_text(table: &Table<'_>, out: &mut [u8])
    requires { length (text_in table.now.m table.now.scheme table.now.cells.now) ≤ length out.old }
    ensures { out.new ≡ put (text_in table.now.m table.now.scheme table.now.cells.now) out.old }
{
    let width = table.width();
    let head = table.header();
    let mut to = Cursor { out, at: 0 };
    put_line(&head[..width], &mut to);
    put_rows(table.cells, width, &mut to);
}
