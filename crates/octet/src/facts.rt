// Worked cases of the types of one octet, each proved of the call that it shows.
ghost use Rattle.std.specs.Prelude.{◌≡◌, [], ◌∷◌, pos};
ghost use Rattle.datapoint.specs.Refusals.{answer};
ghost use Rattle.datapoint.specs.Calls.{delivered};

use crate::control::Controlled;
use crate::step::Stepped;
use datapoint::datapoint_type::DatapointType;
use datapoint::refusal::Refusal;

// 2.001: without control, 01 reads 0, 0.
pub fn no_control(out: &mut [i64]) -> Result<usize, Refusal>
    ensures { (answer result, out.new) ≡ delivered (pos 0 ∷ (pos 0 ∷ [])) out.old }
{
    Controlled.read(&[0x01], out)
}

// 3.007: a break has no direction, so 08 reads 0, 0.
pub fn dimming_break(out: &mut [i64]) -> Result<usize, Refusal>
    ensures { (answer result, out.new) ≡ delivered (pos 0 ∷ (pos 0 ∷ [])) out.old }
{
    Stepped.read(&[0x08], out)
}

// 3.007: a step has one, so 09 reads 1, 1.
pub fn dimming_step(out: &mut [i64]) -> Result<usize, Refusal>
    ensures { (answer result, out.new) ≡ delivered (pos 1 ∷ (pos 1 ∷ [])) out.old }
{
    Stepped.read(&[0x09], out)
}
