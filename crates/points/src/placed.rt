// A placed point.
ghost use Rattle.std.specs.Prelude.{◌≡◌, option_copied};
ghost use Rattle.datapoint.specs.Refusals.{answer};
ghost use Rattle.listing.specs.Fields.{fields_in};
ghost use Rattle.model.specs.Points.{telling};
ghost use Rattle.model.specs.Calls.{receiving, setting, overriding, releasing, reading_out, sending_out};
ghost use Rattle.points.specs.Marks.{mark_of};
ghost use Rattle.points.specs.Model.{placed_point, telling_answer};

use crate::mark::{Call, Mark};
use crate::take::{accept, understand};
use book::book::Book;
use book::number::TypeNumber;
use datapoint::front::deliver;
use datapoint::refusal::Refusal;
use listing::reading::Reading;

// Its type number, perhaps a normal reading and perhaps a forced reading.
#[derive(Clone, Copy, PartialEq, Eq, Debug)]
pub struct Placed {
    pub number: TypeNumber,
    pub normal: Option<Reading>,
    pub forced: Option<Reading>,
}

// What a read answers: the type number, the mark and the count of fields written.
#[derive(Clone, Copy, PartialEq, Eq, Debug)]
pub struct Telling {
    pub number: TypeNumber,
    pub mark: Mark,
    pub fields: usize,
}

impl Placed {
    // What the point tells.
    pub fn mark(&self) -> Mark
        ensures { result ≡ mark_of self.now.normal self.now.forced }
    {
        match (&self.normal, &self.forced) {
            (_, Some(_)) => Mark::Forced,
            (Some(_), None) => Mark::Normal,
            (None, None) => Mark::Silent,
        }
    }

    // A payload's reading becomes the normal reading.
    // This and `set` differ in the call that they name and in what they take: one function would take both.
    pub fn receive<B: Book>(&mut self, book: &B, payload: &[u8]) -> Result<usize, Refusal>
        ensures { (answer result, placed_point self.new) ≡ receiving (B.Book.types book.now) payload.now (placed_point self.old) }
    {
        self.mark().permits(Call::Receive)?;
        self.normal = Some(understand(book, self.number, payload)?);
        Ok(0)
    }

    // A legal reading becomes the normal reading.
    pub fn set<B: Book>(&mut self, book: &B, reading: &[i64]) -> Result<usize, Refusal>
        ensures { (answer result, placed_point self.new) ≡ setting (B.Book.types book.now) reading.now (placed_point self.old) }
    {
        self.mark().permits(Call::Set)?;
        self.normal = Some(accept(book, self.number, reading)?);
        Ok(0)
    }

    // A legal reading becomes the forced reading, in place of an earlier one.
    pub fn force<B: Book>(&mut self, book: &B, reading: &[i64]) -> Result<usize, Refusal>
        ensures { (answer result, placed_point self.new) ≡ overriding (B.Book.types book.now) reading.now (placed_point self.old) }
    {
        self.forced = Some(accept(book, self.number, reading)?);
        Ok(0)
    }

    // The forced reading is dropped.
    pub fn release(&mut self) -> Result<usize, Refusal>
        ensures { (answer result, placed_point self.new) ≡ releasing (placed_point self.old) }
    {
        self.mark().permits(Call::Release)?;
        self.forced = None;
        Ok(0)
    }

    // The forced reading, or else the normal one.
    fn told(&self) -> Option<&Reading>
        ensures { fields_in (option_copied result) ≡ telling (fields_in self.now.normal) (fields_in self.now.forced) }
    {
        self.forced.as_ref().or(self.normal.as_ref())
    }

    // The told reading, into the front of `out`.
    pub fn read(&self, out: &mut [i64]) -> Result<Telling, Refusal>
        ensures { (telling_answer result, out.new) ≡ reading_out (placed_point self.now) out.old }
    {
        let fields = match self.told() {
            Some(reading) => deliver(reading.fields(), out)?,
            None => 0,
        };
        Ok(Telling {
            number: self.number,
            mark: self.mark(),
            fields,
        })
    }

    // The proper payload of the told reading, into the front of `out`.
    pub fn send<B: Book>(&self, book: &B, out: &mut [u8]) -> Result<usize, Refusal>
        ensures { (answer result, out.new) ≡ sending_out (B.Book.types book.now) (placed_point self.now) out.old }
    {
        let reading = self.told().ok_or(Refusal::Silent)?;
        book.write(self.number, reading.fields(), out)
    }
}
