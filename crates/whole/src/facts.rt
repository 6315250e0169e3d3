// What each of the six types makes of one payload or reading.
ghost use Rattle.std.specs.Prelude.{◌≡◌, [], ◌∷◌, pos, negsuc};
ghost use Rattle.datapoint.specs.Calls.{delivered, refuse};
ghost use Rattle.datapoint.specs.Refusals.{answer};
ghost use Rattle.datapoint.specs.declared.refusal.Refusal.TheVariants.{IllegalReading};

use crate::whole::Whole;
use datapoint::datapoint_type::DatapointType;
use datapoint::refusal::Refusal;

// 7.001: the payload 01 00 reads 256.
pub fn high_octet_first(out: &mut [i64]) -> Result<usize, Refusal>
    ensures { (answer result, out.new) ≡ delivered (pos 256 ∷ []) out.old }
{
    Whole::U16.read(&[0x01, 0x00], out)
}

// 12.001: the payload FF FF FF FF reads 4,294,967,295.
pub fn highest_of_all(out: &mut [i64]) -> Result<usize, Refusal>
    ensures { (answer result, out.new) ≡ delivered (pos 4294967295 ∷ []) out.old }
{
    Whole::U32.read(&[0xFF, 0xFF, 0xFF, 0xFF], out)
}

// 6.010: the payload 80 reads -128.
pub fn lowest_of_one_octet(out: &mut [i64]) -> Result<usize, Refusal>
    ensures { (answer result, out.new) ≡ delivered (negsuc 127 ∷ []) out.old }
{
    Whole::I8.read(&[0x80], out)
}

// 8.001: the payload FF FF reads -1.
pub fn minus_one(out: &mut [i64]) -> Result<usize, Refusal>
    ensures { (answer result, out.new) ≡ delivered (negsuc 0 ∷ []) out.old }
{
    Whole::I16.read(&[0xFF, 0xFF], out)
}

// 13.001: the reading -2,147,483,648 is written 80 00 00 00.
pub fn lowest_of_all(out: &mut [u8]) -> Result<usize, Refusal>
    ensures { (answer result, out.new) ≡ delivered (128 ∷ (0 ∷ (0 ∷ (0 ∷ [])))) out.old }
{
    Whole::I32.write(&[-2_147_483_648], out)
}

// 5.010: the reading 256 is not legal.
pub fn past_one_octet(out: &mut [u8]) -> Result<usize, Refusal>
    ensures { (answer result, out.new) ≡ refuse IllegalReading out.old }
{
    Whole::U8.write(&[256], out)
}
