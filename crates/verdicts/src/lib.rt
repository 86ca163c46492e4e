#![tactic(auto)]

// A verdict on an image as numbers, for the calls that C makes.
ghost use Rattle.std.specs.Prelude.{◌≡◌};
ghost use Rattle.loader.specs.Load.{loaded_of, farthest, NearVerdict};
ghost use Rattle.verdicts.specs.Number.{verdict_in, door_number, looked_in};

use loader::Fault;
use tables::Catalogue;

// Why an image is refused, in numbers: that of the refusal, its place, and how many bytes of a number that is at fault by itself were looked at, else 0.
#[derive(Clone, Copy)]
pub struct FaultNumbers {
    pub refusal: usize,
    pub place: usize,
    pub looked: usize,
}

// A verdict in numbers alone: whatever says of an image that it is good, or refused, and then by any number, not only that of a refusal there is.
#[derive(Clone, Copy)]
pub enum Verdict {
    Good,
    Refused(FaultNumbers),
}

impl Verdict {
    // The verdict of the answer of a load.
    pub fn of(loaded: &Result<Catalogue, Fault>) -> Verdict
        ensures { verdict_in result ≡ (loaded_of loaded.now).verdict }
    {
        match loaded {
            Ok(_) => Verdict::Good,
            Err(fault) => Verdict::Refused(FaultNumbers {
                refusal: u64::from(fault.refusal) as usize,
                place: fault.place,
                looked: fault.looked,
            }),
        }
    }
}

// The door's number for a verdict: 0 for good, else place x 32 + refusal.
// No place of a refusal lies far from the image's start, so the number fits.
pub fn number_of(verdict: Verdict) -> u64
    requires { NearVerdict farthest (verdict_in verdict) }
    ensures { result ≡ door_number (verdict_in verdict) }
{
    match verdict {
        Verdict::Good => 0,
        Verdict::Refused(f) => (f.place as u64) * 32 + (f.refusal as u64),
    }
}

// How many bytes of the number at fault were looked at; 0 for good, and where no number is at fault by itself.
// The door's number has no room for it, so the load from C gives it beside that number.
pub fn looked_of(verdict: Verdict) -> u64
    ensures { result ≡ looked_in (verdict_in verdict) }
{
    match verdict {
        Verdict::Good => 0,
        Verdict::Refused(f) => f.looked as u64,
    }
}
