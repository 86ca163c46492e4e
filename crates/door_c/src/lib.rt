#![tactic(auto)]

// The archive for C over crate `door`: its one call, with the promise that it has there and nothing of its own.
ghost use Rattle.door.specs.Door.{Checks};

// Exports `door::harbour_check`.
#[unsafe(no_mangle)]
pub extern "C" fn harbour_check(image: &[u8]) -> u64
    ensures { Checks image.now result }
{
    door::harbour_check(image)
}
