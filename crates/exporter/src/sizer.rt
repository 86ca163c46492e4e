// How long the text of a table is.
ghost use Rattle.std.specs.Prelude.{◌≡◌, ◌/◌, ◌≤◌, ◌<◌, length};
ghost use Rattle.tables.specs.Sizes.{most_cells};
ghost use Rattle.text.specs.Writing.{cell_text, line_text, lines_text, cut};
ghost use Rattle.exporter.specs.Promise.{text_in};

use crate::table::Table;

// How many bytes a cell takes.
fn cell_length(code: u64) -> usize
    ensures { result ≡ length (cell_text code) }
{
    if code == 0 {
        return 0;
    }
    lines::places(code - 1)
}

// How many bytes the line of a row takes: its cells, a comma between two, and the line's end.
fn line_length(row: &[u64]) -> usize
    requires { (0 < length row.now) × (length row.now ≤ most_cells) }
    ensures { result ≡ length (line_text row.now) }
{
    let fields: usize = row.iter().map(|code| cell_length(*code)).sum();
    fields + row.len() + 1
}

// How many bytes the lines of rows of so many cells take.
fn rows_length(cells: &[u64], width: usize) -> usize
    requires { (0 < width) × (length cells.now ≤ most_cells) }
    ensures { result ≡ length (lines_text (cut (length cells.now / width) width cells.now)) }
{
    let mut sum = 0;
    for row in cells.chunks_exact(width) {
        sum += line_length(row);
    }
    sum
}

// How many bytes the text of a table takes.
pub fn text_length(table: &Table<'_>) -> usize
    ensures { result ≡ length (text_in table.now.m table.now.scheme table.now.cells.now) }
{
    let width = table.width();
    let head = table.header();
    line_length(&head[..width]) + rows_length(table.cells, width)
}
