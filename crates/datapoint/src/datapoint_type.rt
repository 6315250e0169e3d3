// A datapoint type.
ghost use Rattle.std.specs.Prelude.{◌≡◌};
ghost use Rattle.datapoint.specs.Refusals.{answer};
ghost use Rattle.datapoint.specs.Meaning.{Meaning, Lawful};
ghost use Rattle.datapoint.specs.Calls.{counts_of, read_out, write_out};

use crate::refusal::Refusal;

// How many octets a payload has, and how many fields a reading.
#[derive(Clone, Copy, PartialEq, Eq, Debug)]
pub struct Counts {
    pub octets: usize,
    pub fields: usize,
}

// What turns payloads into readings and back.
pub trait DatapointType {
    ghost meaning: { Self → Meaning };

    fn counts(&self) -> Counts
        ensures { result ≡ counts_of (meaning self.now) };

    // Reads a payload into the front of `out`, and answers the count of fields.
    fn read(&self, payload: &[u8], out: &mut [i64]) -> Result<usize, Refusal>
        ensures { (answer result, out.new) ≡ read_out (meaning self.now) payload.now out.old };

    // Writes a reading's proper payload into the front of `out`, and answers the count of octets.
    fn write(&self, reading: &[i64], out: &mut [u8]) -> Result<usize, Refusal>
        ensures { (answer result, out.new) ≡ write_out (meaning self.now) reading.now out.old };

    ghost lawful: { (s : Self) → Lawful (meaning s) };
}
