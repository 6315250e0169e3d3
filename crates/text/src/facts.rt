// What comes of a few texts in ASCII.
ghost use Rattle.std.specs.Prelude.{◌≡◌, ◌∷◌, replicate, pos};
ghost use Rattle.datapoint.specs.Calls.{delivered, refuse};
ghost use Rattle.datapoint.specs.Refusals.{answer};

use crate::text::Text;
use datapoint::datapoint_type::DatapointType;
use datapoint::refusal::Refusal;

// The payload 41 42 00 43 and ten 00 reads 65, 66 and twelve 0.
pub fn cleared_after_end(out: &mut [i64]) -> Result<usize, Refusal>
    ensures { (answer result, out.new) ≡ delivered (pos 65 ∷ (pos 66 ∷ replicate 12 (pos 0))) out.old }
{
    let payload = [0x41, 0x42, 0, 0x43, 0, 0, 0, 0, 0, 0, 0, 0, 0, 0];
    Text::ASCII.read(&payload, out)
}

// That reading goes out as 41 42 and twelve 00.
pub fn written_to_end(out: &mut [u8]) -> Result<usize, Refusal>
    ensures { (answer result, out.new) ≡ delivered (65 ∷ (66 ∷ replicate 12 0)) out.old }
{
    let reading = [65, 66, 0, 0, 0, 0, 0, 0, 0, 0, 0, 0, 0, 0];
    Text::ASCII.write(&reading, out)
}

// A payload with 80 as its last octet is refused as not legal, though 80 stands after a 00.
pub fn refused_after_end(out: &mut [i64]) -> Result<usize, Refusal>
    ensures { (answer result, out.new) ≡ refuse Refusal.IllegalPayload out.old }
{
    let payload = [0x41, 0x42, 0, 0, 0, 0, 0, 0, 0, 0, 0, 0, 0, 0x80];
    Text::ASCII.read(&payload, out)
}
