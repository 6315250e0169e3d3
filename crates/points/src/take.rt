// Readings that a point takes.
// A struct of the book and the number is no plainer: a point keeps its number, and is lent the book for one call.
ghost use Rattle.std.specs.Prelude.{◌≡◌};
ghost use Rattle.model.specs.Calls.{understood, accepted};
ghost use Rattle.points.specs.Model.{taken_reading};

use book::book::Book;
use book::number::TypeNumber;
use datapoint::refusal::Refusal;
use listing::reading::Reading;

// The reading of a payload.
pub fn understand<B: Book>(book: &B, number: TypeNumber, payload: &[u8]) -> Result<Reading, Refusal>
    ensures { taken_reading result ≡ understood (B.Book.types book.now number) payload.now }
{
    let mut places = [0; 16];
    let count = book.read(number, payload, &mut places)?;
    Ok(Reading::new(&places[..count]).unwrap())
}

// A reading that the type accepts as it is: one that has a proper payload.
pub fn accept<B: Book>(book: &B, number: TypeNumber, reading: &[i64]) -> Result<Reading, Refusal>
    ensures { taken_reading result ≡ accepted (B.Book.types book.now number) reading.now }
{
    book.write(number, reading, &mut [0; 14])?;
    Ok(Reading::new(reading).unwrap())
}
