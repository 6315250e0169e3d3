// Payloads and readings of the temperature, 9.001, and of the temperature difference, 9.002.
ghost use Rattle.std.specs.Prelude.{◌≡◌, [], ◌∷◌, pos, negsuc};
ghost use Rattle.datapoint.specs.declared.refusal.Refusal.TheVariants.{IllegalPayload};
ghost use Rattle.datapoint.specs.Refusals.{answer};
ghost use Rattle.datapoint.specs.Calls.{delivered, refuse};

use crate::two_octets::Float;
use datapoint::datapoint_type::DatapointType;
use datapoint::refusal::Refusal;

// 9.001: the payload 0C 1A reads 2100.
pub fn room(out: &mut [i64]) -> Result<usize, Refusal>
    ensures { (answer result, out.new) ≡ delivered (pos 2100 ∷ []) out.old }
{
    Float::TEMPERATURE.read(&[0x0c, 0x1a], out)
}

// 9.001: the payload 09 F4 reads 1000.
pub fn ten_degrees(out: &mut [i64]) -> Result<usize, Refusal>
    ensures { (answer result, out.new) ≡ delivered (pos 1000 ∷ []) out.old }
{
    Float::TEMPERATURE.read(&[0x09, 0xf4], out)
}

// 9.001: the reading 1000 goes out as 03 E8.
#[tactic(auto, using(crate::specs::Exponents::smallest_plain))]
pub fn ten_degrees_out(out: &mut [u8]) -> Result<usize, Refusal>
    ensures { (answer result, out.new) ≡ delivered (0x03 ∷ (0xe8 ∷ [])) out.old }
{
    Float::TEMPERATURE.write(&[1000], out)
}

// 9.001: the payload A1 56 reads -27296.
pub fn coldest(out: &mut [i64]) -> Result<usize, Refusal>
    ensures { (answer result, out.new) ≡ delivered (negsuc 27295 ∷ []) out.old }
{
    Float::TEMPERATURE.read(&[0xa1, 0x56], out)
}

// 9.001: the payload A1 55 is below the lowest reading: refusal 9.
pub fn too_cold(out: &mut [i64]) -> Result<usize, Refusal>
    ensures { (answer result, out.new) ≡ refuse IllegalPayload out.old }
{
    Float::TEMPERATURE.read(&[0xa1, 0x55], out)
}

// 9.002: the payload 8A 24 reads -3000.
pub fn thirty_degrees_less(out: &mut [i64]) -> Result<usize, Refusal>
    ensures { (answer result, out.new) ≡ delivered (negsuc 2999 ∷ []) out.old }
{
    Float::DIFFERENCE.read(&[0x8a, 0x24], out)
}

// 9.002: the payload 08 00 reads 0.
pub fn no_difference(out: &mut [i64]) -> Result<usize, Refusal>
    ensures { (answer result, out.new) ≡ delivered (pos 0 ∷ []) out.old }
{
    Float::DIFFERENCE.read(&[0x08, 0x00], out)
}

// 9.002: the reading 0 goes out as 00 00.
#[tactic(auto, using(crate::specs::Exponents::smallest_plain))]
pub fn no_difference_out(out: &mut [u8]) -> Result<usize, Refusal>
    ensures { (answer result, out.new) ≡ delivered (0x00 ∷ (0x00 ∷ [])) out.old }
{
    Float::DIFFERENCE.write(&[0], out)
}

// 9.002: the payload 7F FE reads 67043328, the top.
pub fn top(out: &mut [i64]) -> Result<usize, Refusal>
    ensures { (answer result, out.new) ≡ delivered (pos 67043328 ∷ []) out.old }
{
    Float::DIFFERENCE.read(&[0x7f, 0xfe], out)
}
