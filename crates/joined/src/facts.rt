// Joined types at work.
ghost use Rattle.std.specs.Prelude.{◌≡◌, [], ◌∷◌, pos};
ghost use Rattle.datapoint.specs.declared.refusal.Refusal.TheVariants.{IllegalPayload};
ghost use Rattle.datapoint.specs.Refusals.{answer};
ghost use Rattle.datapoint.specs.Calls.{delivered, refuse};

use crate::join::Joined;
use datapoint::datapoint_type::{Counts, DatapointType};
use datapoint::refusal::Refusal;
use octet::range::UpTo;

// A whole octet.
const OCTET: UpTo = UpTo { highest: 255 };

// A one-bit value with a status octet.
const BIT_WITH_STATUS: Joined<UpTo, UpTo> = Joined {
    first: UpTo { highest: 1 },
    second: UpTo { highest: 31 },
};

// The payload 01 1F reads 1, 31.
pub fn bit_with_status(out: &mut [i64]) -> Result<usize, Refusal>
    ensures { (answer result, out.new) ≡ delivered (pos 1 ∷ pos 31 ∷ []) out.old }
{
    BIT_WITH_STATUS.read(&[0x01, 0x1f], out)
}

// The payload 01 20 is refused: its second octet is no status.
pub fn bit_without_status(out: &mut [i64]) -> Result<usize, Refusal>
    ensures { (answer result, out.new) ≡ refuse IllegalPayload out.old }
{
    BIT_WITH_STATUS.read(&[0x01, 0x20], out)
}

// A type joined with itself.
fn twice<T: Copy>(half: T) -> Joined<T, T>
    ensures { result ≡ record { first = half; second = half } }
{
    Joined {
        first: half,
        second: half,
    }
}

// Three octets joined have three octets and three fields.
pub fn three_octets() -> Counts
    ensures { result ≡ record { octets = 3; fields = 3 } }
{
    Joined {
        first: OCTET,
        second: twice(OCTET),
    }
    .counts()
}

// Sixteen octets joined are too many for a payload.
pub fn sixteen_octets() -> Counts
    ensures { result ≡ record { octets = 14; fields = 16 } }
{
    let four = twice(twice(OCTET));
    Joined {
        first: twice(four),
        second: twice(four),
    }
    .counts()
}
