// The twelve refusals.
ghost use Rattle.std.specs.Prelude.{◌≡◌, Some};
ghost use Rattle.datapoint.specs.Refusals.{told, printed};

use std::error::Error;
use std::fmt;

// Why a call was refused.
#[derive(Clone, Copy, PartialEq, Eq, Debug)]
pub enum Refusal {
    // The point is not 1 to 48.
    NoSuchPoint,
    // A placed point is placed again.
    AlreadyPlaced,
    // The point is not placed.
    NotPlaced,
    // The book has no type of that number.
    UnknownType,
    // A normal write to an overridden point.
    Overridden,
    // A release of a point that has no forced reading.
    NotOverridden,
    // The point has no reading to send.
    Silent,
    // The payload or the reading has another length than the one due.
    WrongLength { due: usize },
    // The payload is not legal in its type.
    IllegalPayload,
    // The reading is not legal in its type.
    IllegalReading,
    // The caller's buffer is shorter than needed.
    ShortBuffer { needed: usize },
    // A line of a loaded text breaks the form.
    BrokenLine,
}

impl Refusal {
    // The number under which the refusal is listed.
    pub fn number(self) -> u8
        ensures { result ≡ (told self).0 }
    {
        match self {
            Refusal::NoSuchPoint => 1,
            Refusal::AlreadyPlaced => 2,
            Refusal::NotPlaced => 3,
            Refusal::UnknownType => 4,
            Refusal::Overridden => 5,
            Refusal::NotOverridden => 6,
            Refusal::Silent => 7,
            Refusal::WrongLength { .. } => 8,
            Refusal::IllegalPayload => 9,
            Refusal::IllegalReading => 10,
            Refusal::ShortBuffer { .. } => 11,
            Refusal::BrokenLine => 12,
        }
    }
}

// The number, and the count that comes with it: "9", or "8, 3 due".
impl fmt::Display for Refusal {
    ghost output = { λ e. Some (printed e) };

    fn fmt<W: fmt::Write>(&self, f: &mut fmt::Formatter<W>) -> fmt::Result {
        let number = self.number();
        match self {
            Refusal::WrongLength { due } => write!(f, "{number}, {due} due"),
            Refusal::ShortBuffer { needed } => write!(f, "{number}, {needed} needed"),
            _ => write!(f, "{number}"),
        }
    }
}

impl Error for Refusal {}
