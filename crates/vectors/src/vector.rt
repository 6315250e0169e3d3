// The rows of the tables.

// A payload or a reading, and what is due for it.
pub enum Vector {
    // A proper payload and its reading.
    Proper(&'static [u8], &'static [i64]),
    // A payload, its reading, and the proper payload of that reading.
    Loose(&'static [u8], &'static [i64], &'static [u8]),
    // A payload that is not legal.
    Illegal(&'static [u8]),
    // A reading that is not legal.
    Unwritable(&'static [i64]),
}

// The vectors of the types from the first to the last sub number.
pub struct Page {
    pub main: u16,
    pub first: u16,
    pub last: u16,
    pub vectors: &'static [Vector],
}

// A type with a proper payload and its reading, for calls of other lengths. As two numbers a row of the table is shorter.
pub struct Shape {
    pub main: u16,
    pub sub: u16,
    pub payload: &'static [u8],
    pub reading: &'static [i64],
}
