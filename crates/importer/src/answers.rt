// What a reading answers: a table, or what is at fault in the text, the refusal and where. Lines and their fields are counted from 1.
ghost use Rattle.std.specs.Prelude.{◌≡◌};

use refusals::Refusal;

// A table that was read: its scheme and how many rows it has.
#[derive(Clone, Copy, PartialEq, Eq, Debug)]
pub struct Table {
    pub scheme: u64,
    pub rows: usize,
}

// Why a text is refused, with the line and its field; both are 0 where the text is refused as a whole, as document 02 gives them.
#[derive(Clone, Copy, PartialEq, Eq, Debug)]
pub struct TextFault {
    pub refusal: Refusal,
    pub line: usize,
    pub field: usize,
}

impl TextFault {
    // The refusal of a text as a whole.
    pub fn whole(refusal: Refusal) -> TextFault
        ensures { result ≡ record { refusal = refusal; line = 0; field = 0 } }
    {
        TextFault {
            refusal,
            line: 0,
            field: 0,
        }
    }
}

// Why a line is refused, with its field.
#[derive(Clone, Copy, PartialEq, Eq, Debug)]
pub struct LineFault {
    pub refusal: Refusal,
    pub field: usize,
}

impl LineFault {
    pub fn new(refusal: Refusal, field: usize) -> LineFault
        ensures { result ≡ record { refusal = refusal; field = field } }
    {
        LineFault { refusal, field }
    }

    // The same in the line of this number.
    pub fn on(self, line: usize) -> TextFault
        ensures { result ≡ record { refusal = self.refusal; line = line; field = self.field } }
    {
        TextFault {
            refusal: self.refusal,
            line,
            field: self.field,
        }
    }
}
