// What a book's calls do with the type that has a number: each is one of these, over the type that was found.
ghost use Rattle.std.specs.Prelude.{◌≡◌};
ghost use Rattle.std.specs.Option.{option_map};
ghost use Rattle.datapoint.specs.Refusals.{answer};
ghost use Rattle.book.specs.Types.{counts_in, read_in, write_in};

use datapoint::datapoint_type::{Counts, DatapointType};
use datapoint::refusal::Refusal;

// The counts of a found type.
pub fn counts_in<T: DatapointType + Drop>(found: Option<T>) -> Result<Counts, Refusal>
    ensures { answer result ≡ counts_in (option_map T.meaning found) }
{
    Ok(found.ok_or(Refusal::UnknownType)?.counts())
}

// Reads a payload by a found type.
pub fn read_in<T: DatapointType + Drop>(
    found: Option<T>,
    payload: &[u8],
    out: &mut [i64],
) -> Result<usize, Refusal>
    ensures { (answer result, out.new) ≡ read_in (option_map T.meaning found) payload.now out.old }
{
    found.ok_or(Refusal::UnknownType)?.read(payload, out)
}

// Writes a reading by a found type.
pub fn write_in<T: DatapointType + Drop>(
    found: Option<T>,
    reading: &[i64],
    out: &mut [u8],
) -> Result<usize, Refusal>
    ensures { (answer result, out.new) ≡ write_in (option_map T.meaning found) reading.now out.old }
{
    found.ok_or(Refusal::UnknownType)?.write(reading, out)
}
