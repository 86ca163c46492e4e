#![tactic(auto)]

// The exporter: one table as comma-separated text into lent bytes. The first pass decides and measures and touches nothing, the second fills.
ghost use Rattle.exporter.specs.TextWritten.{as_text_written};
ghost use Rattle.exporter.specs.Promise.{WritesText};

use refusals::Refusal;
use table::Table;

mod putter;
mod sizer;
mod table;

// Writes a table as text into the front of the lent bytes, and gives its length.
// A refusal writes nothing, so every check, the length's too, is made before the first byte.
pub fn write_text(
    m: usize,
    scheme: u64,
    rows: usize,
    cells: &[u64],
    out: &mut [u8],
) -> Result<usize, Refusal>
    ensures { WritesText m scheme rows cells.now out.old (as_text_written result) out.new }
{
    let table = Table::new(m, scheme, rows, cells)?;
    let len = sizer::text_length(&table);
    if out.len() < len {
        return Err(Refusal::ShortOutput);
    }
    putter::put_text(&table, out);
    Ok(len)
}
