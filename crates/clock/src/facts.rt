// Readings of certain payloads.
ghost use Rattle.std.specs.Prelude.{◌≡◌, [], ◌∷◌, pos};
ghost use Rattle.datapoint.specs.Refusals.{answer};
ghost use Rattle.datapoint.specs.Calls.{delivered};

use crate::date::DateOnly;
use datapoint::datapoint_type::DatapointType;
use datapoint::refusal::Refusal;

// 11.001: the payload 1E 02 59 reads 30, 2, 2089.
pub fn last_february(out: &mut [i64]) -> Result<usize, Refusal>
    ensures { (answer result, out.new) ≡ delivered (pos 30 ∷ pos 2 ∷ pos 2089 ∷ []) out.old }
{
    DateOnly.read(&[0x1E, 0x02, 0x59], out)
}
