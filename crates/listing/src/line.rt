// What a line says of a point.
use crate::reading::Reading;
use book::number::TypeNumber;

// More than sixteen fields, which no type has.
#[derive(Clone, Copy, PartialEq, Eq, Debug)]
pub struct TooMany;

// A reading as it was read from a line, which may be `none`.
pub type Value = Option<Result<Reading, TooMany>>;

// A point, its type number, and its normal and its forced reading, where it has them.
#[derive(Clone, Copy, PartialEq, Eq, Debug)]
pub struct Line<R> {
    pub point: u16,
    pub number: TypeNumber,
    pub normal: Option<R>,
    pub forced: Option<R>,
}
