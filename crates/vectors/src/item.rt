// Octets and fields, and how payloads and readings are printed.
use std::fmt;

// The places of a buffer: room for any payload and reading, and for an item more.
pub const ROOM: usize = 17;

// An octet of a payload, or a field of a reading.
pub trait Item: Copy + Default + PartialEq + fmt::Debug {
    // A buffer of items, in place. It is a type of the item's own, since a generic function holds no array of its parameter.
    type Buffer: fmt::Debug + Drop;

    // What a place of a buffer holds before a call.
    const BLANK: Self;

    // What an item is called.
    const NAME: &'static str;

    // The same with its article.
    const ONE: &'static str;

    // What is printed between two items.
    const GAP: &'static str;

    // A buffer with the item in each place.
    fn buffer(self) -> Self::Buffer;

    // The places of a buffer.
    fn places(buffer: &Self::Buffer) -> &[Self];

    // The places of a buffer, to be filled.
    fn places_mut(buffer: &mut Self::Buffer) -> &mut [Self];

    // Prints an item.
    fn show<W: fmt::Write>(&self, f: &mut fmt::Formatter<W>) -> fmt::Result;
}

impl Item for u8 {
    type Buffer = [u8; ROOM];

    const BLANK: u8 = 0xEE;

    const NAME: &'static str = "octet";

    const ONE: &'static str = "an octet";

    const GAP: &'static str = " ";

    fn buffer(self) -> [u8; ROOM] {
        [self; ROOM]
    }

    fn places(buffer: &[u8; ROOM]) -> &[u8] {
        buffer
    }

    fn places_mut(buffer: &mut [u8; ROOM]) -> &mut [u8] {
        buffer
    }

    // Two hexadecimal digits.
    fn show<W: fmt::Write>(&self, f: &mut fmt::Formatter<W>) -> fmt::Result {
        write!(f, "{self:02X}")
    }
}

impl Item for i64 {
    type Buffer = [i64; ROOM];

    const BLANK: i64 = -77;

    const NAME: &'static str = "field";

    const ONE: &'static str = "a field";

    const GAP: &'static str = ",";

    fn buffer(self) -> [i64; ROOM] {
        [self; ROOM]
    }

    fn places(buffer: &[i64; ROOM]) -> &[i64] {
        buffer
    }

    fn places_mut(buffer: &mut [i64; ROOM]) -> &mut [i64] {
        buffer
    }

    // Decimal.
    fn show<W: fmt::Write>(&self, f: &mut fmt::Formatter<W>) -> fmt::Result {
        write!(f, "{self}")
    }
}

// A payload or a reading, as it is printed.
#[derive(Drop)]
pub struct Items<'a, T>(pub &'a [T]);

impl<T: Item> fmt::Display for Items<'_, T> {
    fn fmt<W: fmt::Write>(&self, f: &mut fmt::Formatter<W>) -> fmt::Result {
        let mut gap = "";
        for item in self.0 {
            f.write_str(gap)?;
            item.show(f)?;
            gap = T::GAP;
        }
        Ok(())
    }
}
