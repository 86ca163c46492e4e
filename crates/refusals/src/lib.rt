#![tactic(auto)]

// The refusals: why a call does not do what it is asked for. The documents number them, and so does what C and the programs are told.
ghost use Rattle.std.specs.Prelude.{◌≡◌};
ghost use Rattle.refusals.specs.Refusals.{number};

// A refusal, by what it says; the number behind each is the documents'.
#[derive(Clone, Copy, PartialEq, Eq, Debug)]
pub enum Refusal {
    // 1: the image ends inside a number, or where one is due.
    EndOfImage,
    // 2: a number is not in its shortest form.
    PaddedNumber,
    // 3: there is no such version.
    UnknownVersion,
    // 4: m or n is out of range.
    SizesOut,
    // 5: a scheme is 0, or has an attribute from m on.
    BadScheme,
    // 6: a table has too many rows.
    ManyRows,
    // 7: a row does not rise above the one before.
    RowNotRising,
    // 8: there is no room for so many cells.
    ManyCells,
    // 9: bytes follow the last table.
    Surplus,
    // 10: a cell's code is too high for an image.
    HighCode,
    // 11: the lent output is too short.
    ShortOutput,
    // 12: the store is full.
    FullStore,
    // 13: the stream record does not fit.
    UnfitRecord,
    // 14: the store is damaged.
    DamagedStore,
    // 16: a stored place or mask is not the one worked out.
    Misstored,
    // 17: a number does not end.
    EndlessNumber,
    // 19: there is no such table or row.
    NoSuchRow,
    // 20: version 2 is not needed.
    NeedlessVersion,
    // 21: a row is all null in version 2.
    NullRow,
    // 22: a line of the text is outside the grammar, or has another number of fields than the header.
    BadLine,
    // 23: the header is none.
    BadHeader,
    // 24: a field is no cell.
    BadCell,
}

// The number that the documents give a refusal; no refusal has 0, which stands for none.
impl From<Refusal> for u64 {
    ghost from_gives = { λ refusal k. k ≡ number refusal };

    fn from(refusal: Refusal) -> u64 {
        match refusal {
            Refusal::EndOfImage => 1,
            Refusal::PaddedNumber => 2,
            Refusal::UnknownVersion => 3,
            Refusal::SizesOut => 4,
            Refusal::BadScheme => 5,
            Refusal::ManyRows => 6,
            Refusal::RowNotRising => 7,
            Refusal::ManyCells => 8,
            Refusal::Surplus => 9,
            Refusal::HighCode => 10,
            Refusal::ShortOutput => 11,
            Refusal::FullStore => 12,
            Refusal::UnfitRecord => 13,
            Refusal::DamagedStore => 14,
            Refusal::Misstored => 16,
            Refusal::EndlessNumber => 17,
            Refusal::NoSuchRow => 19,
            Refusal::NeedlessVersion => 20,
            Refusal::NullRow => 21,
            Refusal::BadLine => 22,
            Refusal::BadHeader => 23,
            Refusal::BadCell => 24,
        }
    }
}
