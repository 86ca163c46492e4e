// The lines of a text behind its header, each a row: its fields one by one, and which refusal it meets.
ghost use Rattle.std.specs.Prelude.{◌≡◌, ◌+◌, ◌^◌, ◌≤◌, ◌<◌, length};
ghost use Rattle.laws.specs.Lists.{over};
ghost use Rattle.text.specs.Fields.{codes_at};
ghost use Rattle.importer.specs.Answers.{line_in};
ghost use Rattle.importer.specs.Steps.{cells_bad, ended_of, LineSays, cells_or, Ends};

use crate::answers::LineFault;
use refusals::Refusal;
use text::{Codes, Fielded, NO_CODE};

// Whether the field of this number, which has the code, is a cell.
fn cell(field: usize, code: u64) -> Result<(), LineFault>
    requires { 0 < field }
    ensures { result ≡ cells_or (cells_bad 0 field code) }
{
    if code < NO_CODE {
        return Ok(());
    }
    Err(LineFault::new(Refusal::BadCell, field))
}

// The lines of a text whose rows have so many attributes.
#[derive(Clone, Copy)]
pub struct Lines<'a> {
    pub text: &'a [u8],
    pub width: usize,
    ghost some: { 0 < width },
    ghost few: { width < 64 },
    ghost short: { length text.now < 2 ^ 63 },
}

impl<'a> Lines<'a> {
    // The codes of the line that begins at a place.
    pub fn codes(&self, at: usize) -> Codes<'a>
        ensures { (result.text ≡ self.now.text) × (result.at ≡ at) × (result.left ≡ self.now.width) }
    {
        Codes {
            text: self.text,
            at,
            left: self.width,
        }
    }

    // Fills the cells from `start` on with the codes of the line that begins at a place.
    pub fn fill_row(&self, at: usize, start: usize, cells: &mut [u64])
        requires { start + self.now.width ≤ length cells.old }
        ensures { cells.new ≡ over start (codes_at self.now.width self.now.text.now at) cells.old }
    {
        let mut k = start;
        for code in self.codes(at) {
            cells[k] = code;
            k += 1;
        }
    }

    // The line ends in its field of this number, and the next one begins at a place.
    // A wrong number of fields comes before a cell at fault.
    fn ended(
        &self,
        field: usize,
        cells: Result<(), LineFault>,
        next: usize,
    ) -> Result<Option<usize>, LineFault>
        requires { field ≤ self.now.width }
        ensures { Ends self.now.width field cells next (line_in result) }
    {
        if field < self.width {
            return Err(LineFault::new(Refusal::BadLine, field + 1));
        }
        cells?;
        Ok(Some(next))
    }

    // The line that begins at a place: where the next one begins; nothing where the text ends here; or what is at fault.
    pub fn read(&self, at: usize) -> Result<Option<usize>, LineFault>
        requires { at ≤ length self.now.text.now }
        ensures { LineSays self.now.width self.now.text.now at (line_in result) }
    {
        let mut place = at;
        let mut cells = Ok(());
        for k in 0..self.width {
            let field = k + 1;
            match text::field_at(self.text, place) {
                Fielded::ToComma(code, next) => {
                    cells = cells.and(cell(field, code));
                    place = next;
                }
                Fielded::ToLine(code, next) => {
                    return self.ended(field, cells.and(cell(field, code)), next);
                }
                Fielded::Nothing(_) if k == 0 => return Ok(None),
                Fielded::Nothing(code) => {
                    return self.ended(field, cells.and(cell(field, code)), place);
                }
                Fielded::OutsideHere => return Err(LineFault::new(Refusal::BadLine, field)),
            }
        }
        Err(LineFault::new(Refusal::BadLine, self.width + 1))
    }
}
