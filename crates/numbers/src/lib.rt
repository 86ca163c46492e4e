#![tactic(auto)]

// The image's numbers: groups of seven bits, lowest first, the top bit set on all but the last byte.
ghost use Rattle.std.specs.Prelude.{◌≡◌, ◌^◌, ◌<◌, ◌≤◌, length};
ghost use Rattle.numbers.specs.Readings.{reading_of};
ghost use Rattle.numbers.specs.Numbers.{encode, decode, Wrote};

use refusals::Refusal;

// "nine bytes at most".
const MOST_BYTES: usize = 9;

// How many values a group has: the top bit of a byte is worth this, and each group this many times the one before.
const GROUP: u64 = 128;

// A number that was read, and the place behind it.
#[derive(Clone, Copy, PartialEq, Eq, Debug)]
pub struct Number {
    pub value: u64,
    pub next: usize,
}

// Why a number cannot be read, and how many bytes of it were looked at.
#[derive(Clone, Copy, PartialEq, Eq, Debug)]
pub struct NumberFault {
    pub refusal: Refusal,
    pub looked: usize,
}

// Reads the number that starts at a place, which may lie behind the slice.
// It takes the shortest form alone, so that an image has one form only. A fault tells an end (1), a padded number (2) and an endless one (17) apart.
// Inlined wherever numbers are read, since its answer would else pass through memory, number by number.
#[inline(always)]
pub fn read(s: &[u8], at: usize) -> Result<Number, NumberFault>
    ensures { reading_of result ≡ decode s.now at }
{
    let mut weight: u64 = 1;
    let mut value: u64 = 0;
    for t in 0..MOST_BYTES {
        let Some(&byte) = s.get(at + t) else {
            return Err(NumberFault {
                refusal: Refusal::EndOfImage,
                looked: t,
            });
        };
        let group = byte as u64;
        if group < GROUP {
            if 0 < t && group == 0 {
                return Err(NumberFault {
                    refusal: Refusal::PaddedNumber,
                    looked: t + 1,
                });
            }
            let value = value + group * weight;
            return Ok(Number {
                value,
                next: at + t + 1,
            });
        }
        value += (group - GROUP) * weight;
        weight *= GROUP;
    }
    Err(NumberFault {
        refusal: Refusal::EndlessNumber,
        looked: MOST_BYTES,
    })
}

// How many bytes a number takes: one for each seven bits up to its highest set bit. Most numbers are below 128, and 0 has no set bit: one byte.
// The image writer adds these up before it writes a byte.
pub fn size(x: u64) -> usize
    requires { x < 2 ^ 63 }
    ensures { result ≡ length (encode x) }
{
    if x < GROUP {
        return 1;
    }
    let highest = 63 - u64::leading_zeros(x);
    (highest / 7 + 1) as usize
}

// Writes a number's bytes into the front of the lent part, and gives how many they are.
// What lies behind them stays, so that numbers are written one behind the other.
pub fn write(out: &mut [u8], x: u64) -> usize
    requires { (x < 2 ^ 63) × (length (encode x) ≤ length out.old) }
    ensures { Wrote x out.old result out.new }
{
    let mut y = x;
    let mut n: usize = 0;
    // A `while`, since the last group shows only as the groups are cut off; a counted loop would first have to ask `size`.
    while GROUP <= y {
        out[n] = (GROUP + y % GROUP) as u8;
        y /= GROUP;
        n += 1;
    }
    out[n] = y as u8;
    n + 1
}
