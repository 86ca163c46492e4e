#![tactic(auto)]

// Comma-separated text after RFC 4180, field by field: what each byte means where it stands, and the code that a field spells.
// What a text of such fields tells, and how a table is written as one, stands in specs/; the importer reads, the exporter writes.
ghost use Rattle.std.specs.Prelude.{◌≡◌, ◌≤◌};
ghost use Rattle.std.specs.Iterator.{YieldsFirst, item_count};
ghost use Rattle.text.specs.Lines.{no_code, kind_of, act, code_on};
ghost use Rattle.text.specs.Fields.{field_at, codes_at, Reads};

// "24: a cell .. above 2^63 - 2": no cell has this code, which stands for every field that is written otherwise.
pub const NO_CODE: u64 = 1 << 63;

// What the grammar tells apart in a byte.
#[derive(Clone, Copy, PartialEq, Eq, Debug)]
pub enum Kind {
    TextByte,
    QuoteByte,
    CommaByte,
    CrByte,
    LfByte,
    OtherByte,
}

// Where in a field a byte stands: at its first byte, in a plain one, between quotes,
// behind a quote in a quoted one (its last, or the first of two), or behind the CR after it.
#[derive(Clone, Copy, PartialEq, Eq, Debug)]
pub enum Form {
    AtStart,
    InPlain,
    InQuotes,
    AfterQuote,
    AfterCr,
}

// What a byte does: it belongs to the field's content, or is a mark around it; it ends the field, or with it the line; or it stands outside the grammar.
#[derive(Clone, Copy, PartialEq, Eq, Debug)]
pub enum Act {
    Takes(Form),
    Marks(Form),
    NextField,
    NextLine,
    Breaks,
}

// A field: its code and the place behind what ends it, a comma or the line (CRLF, or the text's end).
// Or the text ends where the field begins, or no field of the grammar stands there.
#[derive(Clone, Copy, PartialEq, Eq, Debug)]
pub enum Fielded {
    ToComma(u64, usize),
    ToLine(u64, usize),
    Nothing(u64),
    OutsideHere,
}

// A field's code and the place behind it.
#[derive(Clone, Copy)]
pub struct CodeAt {
    pub code: u64,
    pub next: usize,
}

// What a byte is to the grammar.
impl From<u8> for Kind {
    ghost from_gives = { λ b kind. kind ≡ kind_of b };

    fn from(b: u8) -> Kind {
        match b {
            b'"' => Kind::QuoteByte,
            b',' => Kind::CommaByte,
            b'\r' => Kind::CrByte,
            b'\n' => Kind::LfByte,
            0x20..=0x7E => Kind::TextByte,
            _ => Kind::OtherByte,
        }
    }
}

impl Form {
    // What a byte of a kind does where it stands.
    fn act(self, kind: Kind) -> Act
        ensures { result ≡ act self kind }
    {
        match self {
            Form::AtStart => match kind {
                Kind::TextByte => Act::Takes(Form::InPlain),
                Kind::QuoteByte => Act::Marks(Form::InQuotes),
                Kind::CommaByte => Act::NextField,
                Kind::CrByte => Act::Marks(Form::AfterCr),
                Kind::LfByte | Kind::OtherByte => Act::Breaks,
            },
            Form::InPlain => match kind {
                Kind::TextByte => Act::Takes(Form::InPlain),
                Kind::CommaByte => Act::NextField,
                Kind::CrByte => Act::Marks(Form::AfterCr),
                Kind::QuoteByte | Kind::LfByte | Kind::OtherByte => Act::Breaks,
            },
            Form::InQuotes => match kind {
                Kind::QuoteByte => Act::Marks(Form::AfterQuote),
                Kind::TextByte | Kind::CommaByte | Kind::CrByte | Kind::LfByte => Act::Takes(
                    Form::InQuotes,
                ),
                Kind::OtherByte => Act::Breaks,
            },
            Form::AfterQuote => match kind {
                Kind::QuoteByte => Act::Takes(Form::InQuotes),
                Kind::CommaByte => Act::NextField,
                Kind::CrByte => Act::Marks(Form::AfterCr),
                Kind::TextByte | Kind::LfByte | Kind::OtherByte => Act::Breaks,
            },
            Form::AfterCr => match kind {
                Kind::LfByte => Act::NextLine,
                _ => Act::Breaks,
            },
        }
    }
}

// The code of a field of the code c so far that goes on with the byte b: 0 of what is empty, else the value plus 1, and 2^63 of what is no cell.
// No product wraps: what passes 2^63 stays there.
fn code_on(c: u64, b: u8) -> u64
    requires { c ≤ no_code }
    ensures { (result ≡ code_on c b) × (result ≤ no_code) }
{
    if !b.is_ascii_digit() {
        return NO_CODE;
    }
    let digit = u64::from(b - b'0');
    match c {
        0 => digit + 1,
        1 => NO_CODE,
        _ => (c - 1)
            .saturating_mul(10)
            .saturating_add(digit + 1)
            .min(NO_CODE),
    }
}

// The field that begins at a place.
// Byte by byte: each moves the form and the code so far on, or ends the field.
pub fn field_at(text: &[u8], at: usize) -> Fielded
    ensures { result ≡ field_at text.now at }
{
    let mut form = Form::AtStart;
    let mut code: u64 = 0;
    for i in at..text.len() {
        let b = text[i];
        match form.act(Kind::from(b)) {
            Act::Takes(next) => {
                form = next;
                code = code_on(code, b);
            }
            Act::Marks(next) => {
                form = next;
            }
            Act::NextField => return Fielded::ToComma(code, i + 1),
            Act::NextLine => return Fielded::ToLine(code, i + 1),
            Act::Breaks => return Fielded::OutsideHere,
        }
    }
    match form {
        Form::AtStart => Fielded::Nothing(code),
        Form::InPlain | Form::AfterQuote => Fielded::ToLine(code, text.len()),
        Form::InQuotes | Form::AfterCr => Fielded::OutsideHere,
    }
}

// The code of the field that begins at a place, and the place behind it.
// For lines that were read before and found good: they are read again to be compared, and to fill the cells.
#[tactic(auto, unfolding(crate::specs::Fields::code_of, crate::specs::Fields::next_of))]
pub fn code_at(text: &[u8], at: usize) -> CodeAt
    ensures { Reads text.now at result }
{
    match field_at(text, at) {
        Fielded::ToComma(code, next) | Fielded::ToLine(code, next) => CodeAt { code, next },
        Fielded::Nothing(code) => CodeAt { code, next: at },
        Fielded::OutsideHere => CodeAt {
            code: NO_CODE,
            next: at,
        },
    }
}

// The codes of the fields of a line: those of so many fields, the first of which begins at a place.
#[derive(Clone, Copy, Drop)]
pub struct Codes<'a> {
    pub text: &'a [u8],
    pub at: usize,
    pub left: usize,
}

impl<'a> Iterator for Codes<'a> {
    type Item = u64;

    ghost next_gives = { YieldsFirst (λ s. codes_at s.left s.text.now s.at) };

    ghost remaining = { item_count (λ s. codes_at s.left s.text.now s.at) };

    fn next(&mut self) -> Option<u64> {
        if self.left == 0 {
            return None;
        }
        self.left -= 1;
        let field = code_at(self.text, self.at);
        self.at = field.next;
        Some(field.code)
    }
}
