#![tactic(auto)]

// The loader: an image's catalogue, and its cells into those lent. It goes in two passes: the first decides and touches nothing, the second fills.
ghost use Rattle.std.specs.Prelude.{◌≡◌};
ghost use Rattle.refusals.specs.Refusals.{number};
ghost use Rattle.loader.specs.Reading.{refusal_at, number_at};
ghost use Rattle.loader.specs.Faults.{fault_of, field_of};
ghost use Rattle.loader.specs.Load.{loaded_of, Loads};

use numbers::Number;
use refusals::Refusal;
use tables::Catalogue;

mod filler;
mod scanner;

pub use scanner::scan;

// Why an image is refused: the refusal, its place, and how many bytes of a number that is at fault by itself were looked at, else 0.
#[derive(Clone, Copy, PartialEq, Eq, Debug)]
pub struct Fault {
    pub refusal: Refusal,
    pub place: usize,
    pub looked: usize,
}

impl Fault {
    // A refusal that is no number's own, at a place.
    fn at(refusal: Refusal, place: usize) -> Fault
        ensures { fault_of result ≡ refusal_at (number refusal) place 0 }
    {
        Fault {
            refusal,
            place,
            looked: 0,
        }
    }
}

// A table's scheme, its row count, the cells with it and the place behind it.
#[derive(Clone, Copy)]
pub struct Table {
    pub scheme: u64,
    pub rows: u16,
    pub used: usize,
    pub next: usize,
}

// Loads an image: its catalogue, and its cells into the front of those lent.
// A refused image leaves the cells as they were, so they are filled only behind a good first pass.
pub fn load(image: &[u8], cells: &mut [u64]) -> Result<Catalogue, Fault>
    ensures { Loads image.now cells.old (loaded_of result) cells.new }
{
    let catalogue = scan(image, cells.len())?;
    filler::fill(image, catalogue.n, cells);
    Ok(catalogue)
}

// The number at a place, or its own refusal there.
// Inlined as `read` is, so that a fault is made only where there is one.
#[inline(always)]
fn number_at(s: &[u8], at: usize) -> Result<Number, Fault>
    ensures { field_of result ≡ number_at s.now at }
{
    numbers::read(s, at).map_err(|fault| Fault {
        refusal: fault.refusal,
        place: at,
        looked: fault.looked,
    })
}
