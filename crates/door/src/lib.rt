#![tactic(auto)]

// The C door: a collector written in C asks whether an image is good.
ghost use Rattle.door.specs.Door.{Checks};

use verdicts::Verdict;

// How many cells of room are assumed: as many as tables can have.
const ROOM: usize = 8192;

// Whether an image is good; 8,192 cells of room are assumed.
// The loader's first pass alone decides, so no cell is copied on the way.
pub fn harbour_check(image: &[u8]) -> u64
    ensures { Checks image.now result }
{
    verdicts::number_of(Verdict::of(&loader::scan(image, ROOM)))
}
