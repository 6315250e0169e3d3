// What a book is given, and what comes of it.
use crate::came::Came;
use crate::item::Item;
use book::book::Book;
use book::number::TypeNumber;
use datapoint::refusal::Refusal;

// An octet of a payload to be read, or a field of a reading to be written.
pub trait Given: Item {
    // An item of what comes out.
    type Out: Item;

    // Why a book refuses items that are not legal.
    const ILLEGAL: Refusal;

    // Reads or writes the items into the front of `out`.
    fn call<B: Book>(
        book: &B,
        number: TypeNumber,
        given: &[Self],
        out: &mut [Self::Out],
    ) -> Result<usize, Refusal>;
}

impl Given for u8 {
    type Out = i64;

    const ILLEGAL: Refusal = Refusal::IllegalPayload;

    fn call<B: Book>(
        book: &B,
        number: TypeNumber,
        given: &[u8],
        out: &mut [i64],
    ) -> Result<usize, Refusal> {
        book.read(number, given, out)
    }
}

impl Given for i64 {
    type Out = u8;

    const ILLEGAL: Refusal = Refusal::IllegalReading;

    fn call<B: Book>(
        book: &B,
        number: TypeNumber,
        given: &[i64],
        out: &mut [u8],
    ) -> Result<usize, Refusal> {
        book.write(number, given, out)
    }
}

// A book at one type number.
#[derive(Drop)]
pub struct Entry<'a, B> {
    pub book: &'a B,
    pub number: TypeNumber,
}

impl<B: Book> Entry<'_, B> {
    // What comes of a call into a buffer of that many places, and no more than ROOM.
    pub fn call<T: Given>(&self, given: &[T], room: usize) -> Came<T::Out> {
        let mut out = T::Out::BLANK.buffer();
        let places = T::Out::places_mut(&mut out);
        let room = room.min(places.len());
        let answer = T::call(self.book, self.number, given, &mut places[..room]);
        Came { answer, out }
    }
}
