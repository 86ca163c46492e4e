#![tactic(auto)]

// The writer: the image of tables into lent bytes. It goes in two passes: the first decides and touches nothing, the second fills.
ghost use Rattle.writer.specs.Written.{as_written};
ghost use Rattle.writer.specs.Write.{Writes};

use refusals::Refusal;
use tables::Catalogue;

mod checker;
mod putter;
mod runs;

pub use checker::check_rows;

// Writes the image of the tables into the front of the lent bytes, and gives its length.
// A refusal writes nothing, so every check, the length's too, is made before the first byte.
pub fn write(cat: Catalogue, cells: &[u64], out: &mut [u8]) -> Result<usize, Refusal>
    ensures { Writes cat cells.now out.old (as_written result) out.new }
{
    let tables = checker::check(cat, cells)?;
    let len = checker::image_length(&tables);
    if out.len() < len {
        return Err(Refusal::ShortOutput);
    }
    putter::put_image(&tables, out);
    Ok(len)
}
