// Two books bound as one.
ghost use Rattle.either.specs.Either.{either};
ghost use Rattle.book.specs.Lawful.{bound_lawful, either_lawful};
ghost use Rattle.book.specs.Types.{bound};

use crate::book::Book;
use crate::catalogue::Catalogue;
use crate::number::TypeNumber;
use datapoint::datapoint_type::{Counts, DatapointType};
use datapoint::refusal::Refusal;
use either::{Either, Left, Right, for_both};

// A type of the first book or of the second: the kit's `Either`, wrapped so that it can be a datapoint type here.
#[derive(Clone, Copy, PartialEq, Eq, Debug)]
pub struct BoundType<A, B>(pub Either<A, B>);

impl<A: DatapointType, B: DatapointType> DatapointType for BoundType<A, B> {
    ghost meaning = { λ s. either A.DatapointType.meaning B.DatapointType.meaning s.0 };

    ghost lawful = { λ s. either_lawful A.DatapointType.lawful B.DatapointType.lawful s.0 };

    fn counts(&self) -> Counts {
        for_both!(&self.0, t => t.counts())
    }

    fn read(&self, payload: &[u8], out: &mut [i64]) -> Result<usize, Refusal> {
        for_both!(&self.0, t => t.read(payload, out))
    }

    fn write(&self, reading: &[i64], out: &mut [u8]) -> Result<usize, Refusal> {
        for_both!(&self.0, t => t.write(reading, out))
    }
}

// Has the first book's type where there is one, and otherwise the second one's.
#[derive(Clone, Copy, PartialEq, Eq, Debug)]
pub struct Bound<A, B> {
    pub first: A,
    pub second: B,
}

impl<A: Book, B: Book> Book for Bound<A, B> {
    ghost types = { λ s. bound (A.Book.types s.first) (B.Book.types s.second) };

    ghost lawful = { λ s. bound_lawful (A.Book.lawful s.first) (B.Book.lawful s.second) };

    fn counts(&self, number: TypeNumber) -> Result<Counts, Refusal> {
        match self.first.counts(number) {
            Err(Refusal::UnknownType) => self.second.counts(number),
            found => found,
        }
    }

    fn read(&self, number: TypeNumber, payload: &[u8], out: &mut [i64]) -> Result<usize, Refusal> {
        match self.first.read(number, payload, out) {
            Err(Refusal::UnknownType) => self.second.read(number, payload, out),
            done => done,
        }
    }

    fn write(&self, number: TypeNumber, reading: &[i64], out: &mut [u8]) -> Result<usize, Refusal> {
        match self.first.write(number, reading, out) {
            Err(Refusal::UnknownType) => self.second.write(number, reading, out),
            done => done,
        }
    }
}

impl<A: Catalogue, B: Catalogue> Catalogue for Bound<A, B> {
    type Type = BoundType<A::Type, B::Type>;

    fn type_of(&self, number: TypeNumber) -> Option<BoundType<A::Type, B::Type>> {
        // A match: no proof is generated of `map(Right)`, whose result names a type parameter.
        let found = match self.first.type_of(number) {
            Some(found) => Left(found),
            None => Right(self.second.type_of(number)?),
        };
        Some(BoundType(found))
    }
}
