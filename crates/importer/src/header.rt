// The header: "a header line of attribute numbers, strictly rising and below m". It may have any number of fields, so nothing is kept of them but
// the scheme, or the first one at fault.
ghost use Rattle.std.specs.Prelude.{ℕ, ◌≡◌, ◌^◌, ◌≤◌, ◌<◌, length, IfOk};
ghost use Rattle.importer.specs.Answers.{head_in};
ghost use Rattle.importer.specs.Steps.{HeadSays, Grows};

use crate::answers::LineFault;
use refusals::Refusal;
use text::Fielded;

// What the header gives: the scheme, how many attributes it has and the place of the first row's line.
#[derive(Clone, Copy)]
pub struct Header {
    pub scheme: u64,
    pub width: usize,
    pub rows: usize,
}

// The scheme with the attribute whose code the field of this number has, behind the code `before`; or the first field that is at fault.
// An attribute's code is its number plus 1, so that no empty field rises above the 0 before the first.
fn with_attribute(
    scheme: Result<u64, LineFault>,
    m: usize,
    before: u64,
    field: usize,
    code: u64,
) -> Result<u64, LineFault>
    requires { (m < 64) × (0 < field) × IfOk scheme (λ x. x < 2 ^ before) }
    ensures { Grows m field before code scheme result }
{
    let scheme = scheme?;
    if code <= before || (m as u64) < code {
        return Err(LineFault::new(Refusal::BadHeader, field));
    }
    Ok(scheme + (1 << (code - 1)))
}

// The header of a text, or what is at fault in it.
pub fn read_header(m: usize, text: &[u8]) -> Result<Header, LineFault>
    requires { (1 ≤ m) × (m < 64) }
    ensures { HeadSays m text.now (head_in result) }
{
    let mut at = 0;
    let mut width = 0;
    let mut before = 0;
    let mut scheme = Ok(0);
    loop {
        width += 1;
        let (code, rows) = match text::field_at(text, at) {
            Fielded::ToComma(code, next) => {
                scheme = with_attribute(scheme, m, before, width, code);
                before = code;
                at = next;
                continue;
            }
            Fielded::ToLine(code, next) => (code, next),
            Fielded::Nothing(_) if width == 1 => {
                return Err(LineFault::new(Refusal::BadHeader, 1));
            }
            Fielded::Nothing(code) => (code, at),
            Fielded::OutsideHere => return Err(LineFault::new(Refusal::BadLine, width)),
        };
        let scheme = with_attribute(scheme, m, before, width, code)?;
        return Ok(Header {
            scheme,
            width,
            rows,
        });
    }
}
