#![tactic(auto)]

// The importer: one table from comma-separated text into lent cells.
// The text is read line by line. Of the lines whose rows are new only the places are kept, in the rows' order, so that a text may have any number of lines;
// rows are compared in the text, and the cells are filled last, when nothing is refused.
ghost use Rattle.std.specs.Prelude.{[], ◌≤◌, ◌<◌, length, drop};
ghost use Rattle.text.specs.declared.Form.TheVariants.{AtStart};
ghost use Rattle.text.specs.Lines.{lines_from};
ghost use Rattle.text.specs.Reading.{rows_from};
ghost use Rattle.importer.specs.Answers.{read_in};
ghost use Rattle.importer.specs.Promise.{Tells, ReadsText};

mod answers;
mod collector;
mod header;
mod keeper;
mod liner;

pub use answers::{Table, TextFault};
use header::Header;
use keeper::Kept;
use liner::Lines;
use refusals::Refusal;

// The most attributes that a table may have, and the most cells of all its rows.
const MOST_ATTRIBUTES: usize = 63;

const MOST_CELLS: usize = 8192;

// The rows of a text whose header was read.
fn read_rows(text: &[u8], header: Header, cells: &mut [u64]) -> Result<Table, TextFault>
    requires { (1 ≤ header.width) × (header.width < 64) × (1 ≤ header.rows) × (header.rows ≤ length text.now) }
    ensures { Tells (rows_from (length cells.old) header.scheme header.width 2 [] (lines_from (drop header.rows text.now) AtStart 0 [])) cells.old (read_in result) cells.new }
{
    let lines = Lines {
        text,
        width: header.width,
    };
    let mut kept = Kept::new(lines);
    collector::collect(&mut kept, header.rows)?;
    let needed = kept.len() * header.width;
    if MOST_CELLS < needed || cells.len() < needed {
        return Err(TextFault::whole(Refusal::ManyCells));
    }
    kept.fill(cells);
    Ok(Table {
        scheme: header.scheme,
        rows: kept.len(),
    })
}

// Reads one table of at most m attributes from comma-separated text into the front of the lent cells: its scheme, and its rows in order, repeats once.
// A refusal writes nothing.
pub fn read_text(m: usize, text: &[u8], cells: &mut [u64]) -> Result<Table, TextFault>
    ensures { ReadsText m text.now cells.old (read_in result) cells.new }
{
    if m < 1 || MOST_ATTRIBUTES < m {
        return Err(TextFault::whole(Refusal::SizesOut));
    }
    let header = header::read_header(m, text).map_err(|fault| fault.on(1))?;
    read_rows(text, header, cells)
}
