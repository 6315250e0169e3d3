// A book of datapoint types.
ghost use Rattle.std.specs.Prelude.{◌≡◌};
ghost use Rattle.datapoint.specs.Refusals.{answer};
ghost use Rattle.book.specs.Types.{Types, LawfulTypes, counts_in, read_in, write_in};

use crate::number::TypeNumber;
use datapoint::datapoint_type::Counts;
use datapoint::refusal::Refusal;

// Does what a type does, with the type's number named first; a number of no type is refused before anything else.
pub trait Book {
    ghost types: { Self → Types };

    fn counts(&self, number: TypeNumber) -> Result<Counts, Refusal>
        ensures { answer result ≡ counts_in (types self.now number) };

    // Reads a payload into the front of `out`, and answers the count of fields.
    fn read(&self, number: TypeNumber, payload: &[u8], out: &mut [i64]) -> Result<usize, Refusal>
        ensures { (answer result, out.new) ≡ read_in (types self.now number) payload.now out.old };

    // Writes a reading's proper payload into the front of `out`, and answers the count of octets.
    fn write(&self, number: TypeNumber, reading: &[i64], out: &mut [u8]) -> Result<usize, Refusal>
        ensures { (answer result, out.new) ≡ write_in (types self.now number) reading.now out.old };

    ghost lawful: { (s : Self) → LawfulTypes (types s) };
}
