// All rows' lines of a text: which rows there are, or the first refusal.
ghost use Rattle.std.specs.Prelude.{◌≡◌, ◌+◌, ◌≤◌, ◌<◌, length};
ghost use Rattle.importer.specs.Answers.{fault_of, collected_in};
ghost use Rattle.importer.specs.Kept.{Collects, Overfull};

use crate::answers::TextFault;
use crate::keeper::Kept;
use crate::liner::Lines;
use refusals::Refusal;

// The most rows that a table may have.
const MOST_ROWS: usize = 4095;

// What the lines from a place on are refused for, once more rows are kept than a table may have: a line's own fault, or at the end 6.
// Nothing is kept any more, since no number of rows helps; but 22 and 24 come first in reading order.
fn refuse_rest(lines: &Lines<'_>, from: usize, first: usize) -> TextFault
    requires { (from ≤ length lines.now.text.now) × (first ≤ from + 1) }
    ensures { Overfull lines.now.width lines.now.text.now from first (fault_of result) }
{
    let mut at = from;
    let mut line = first;
    loop {
        match lines.read(at) {
            Ok(Some(next)) => {
                at = next;
                line += 1;
            }
            Ok(None) => return TextFault::whole(Refusal::ManyRows),
            Err(fault) => return fault.on(line),
        }
    }
}

// Keeps the rows of the lines from a place on, the first of which has number 2.
pub fn collect(kept: &mut Kept<'_>, from: usize) -> Result<(), TextFault>
    requires { (kept.old.count ≡ 0) × (1 ≤ from) × (from ≤ length kept.old.lines.text.now) }
    ensures same_lines { kept.new.lines ≡ kept.old.lines }
    ensures told { Collects kept.old.lines.width kept.old.lines.text.now from (collected_in result kept.new.count) kept.new.places }
{
    let lines = kept.lines;
    let mut at = from;
    let mut line = 2;
    while let Some(next) = lines.read(at).map_err(|fault| fault.on(line))? {
        kept.keep(at);
        at = next;
        line += 1;
        if MOST_ROWS < kept.len() {
            return Err(refuse_rest(&lines, at, line));
        }
    }
    Ok(())
}
