// Readings of certain payloads.
ghost use Rattle.std.specs.Prelude.{◌≡◌, [], ◌∷◌, pos};
ghost use Rattle.datapoint.specs.Refusals.{answer};
ghost use Rattle.datapoint.specs.Calls.{delivered, refuse};
ghost use Rattle.datapoint.specs.declared.refusal.Refusal.TheVariants.{IllegalPayload};

use crate::date_time::DateAndTime;
use datapoint::datapoint_type::DatapointType;
use datapoint::refusal::Refusal;

// 19.001: the payload 7C 0C 1F 18 00 00 00 00 reads hour 24 of 31 December 2024.
pub fn end_of_year(out: &mut [i64]) -> Result<usize, Refusal>
    ensures { (answer result, out.new) ≡ delivered (pos 2024 ∷ pos 12 ∷ pos 31 ∷ pos 0 ∷ pos 24 ∷ pos 0 ∷ pos 0 ∷ pos 0 ∷ pos 0 ∷ pos 0 ∷ pos 0 ∷ pos 0 ∷ pos 0 ∷ pos 0 ∷ pos 0 ∷ pos 0 ∷ []) out.old }
{
    DateAndTime.read(&[0x7C, 0x0C, 0x1F, 0x18, 0, 0, 0, 0], out)
}

// 19.001: a minute more, 7C 0C 1F 18 01 00 00 00, is no legal payload.
pub fn past_midnight(out: &mut [i64]) -> Result<usize, Refusal>
    ensures { (answer result, out.new) ≡ refuse IllegalPayload out.old }
{
    DateAndTime.read(&[0x7C, 0x0C, 0x1F, 0x18, 1, 0, 0, 0], out)
}

// 19.001: the payload 7C 0C 1F 1F 00 00 02 00 has NT set, and its hour reads 0.
pub fn no_time(out: &mut [i64]) -> Result<usize, Refusal>
    ensures { (answer result, out.new) ≡ delivered (pos 2024 ∷ pos 12 ∷ pos 31 ∷ pos 0 ∷ pos 0 ∷ pos 0 ∷ pos 0 ∷ pos 0 ∷ pos 0 ∷ pos 0 ∷ pos 0 ∷ pos 0 ∷ pos 0 ∷ pos 1 ∷ pos 0 ∷ pos 0 ∷ []) out.old }
{
    DateAndTime.read(&[0x7C, 0x0C, 0x1F, 0x1F, 0, 0, 2, 0], out)
}
