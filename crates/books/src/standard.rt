// The types that the books have.
ghost use Rattle.std.specs.Prelude.{◌≡◌};
ghost use Rattle.octet.specs.Range.{up_to};
ghost use Rattle.books.specs.Standard.{meaning_of};
ghost use Rattle.books.specs.Laws.{standard_lawful};

use clock::date::DateOnly;
use clock::time::TimeOfDay;
use datapoint::datapoint_type::{Counts, DatapointType};
use datapoint::refusal::Refusal;
use float::two_octets::Float;
use joined::join::Joined;
use moment::date_time::DateAndTime;
use octet::control::Controlled;
use octet::range::UpTo;
use octet::scene::FlaggedScene;
use octet::step::Stepped;
use text::text::Text;
use whole::whole::Whole;

// One of the types that the books have.
#[derive(Clone, Copy, PartialEq, Eq, Debug)]
pub enum StandardType {
    UpTo(UpTo),
    Controlled(Controlled),
    Stepped(Stepped),
    FlaggedScene(FlaggedScene),
    Whole(Whole),
    Float(Float),
    TimeOfDay(TimeOfDay),
    DateOnly(DateOnly),
    DateAndTime(DateAndTime),
    Text(Text),
    Colour(Joined<Whole, Joined<Whole, Whole>>),
    WithStatus(Joined<UpTo, UpTo>),
}

// An octet up to the highest.
pub(crate) fn up_to(highest: u8) -> StandardType
    ensures { meaning_of result ≡ up_to highest }
{
    StandardType::UpTo(UpTo { highest })
}

// The same call of whichever type it is.
macro_rules! with_type {
    ($standard:expr, $t:ident => $call:expr) => {
        match $standard {
            StandardType::UpTo($t) => $call,
            StandardType::Controlled($t) => $call,
            StandardType::Stepped($t) => $call,
            StandardType::FlaggedScene($t) => $call,
            StandardType::Whole($t) => $call,
            StandardType::Float($t) => $call,
            StandardType::TimeOfDay($t) => $call,
            StandardType::DateOnly($t) => $call,
            StandardType::DateAndTime($t) => $call,
            StandardType::Text($t) => $call,
            StandardType::Colour($t) => $call,
            StandardType::WithStatus($t) => $call,
        }
    };
}

impl DatapointType for StandardType {
    ghost meaning = { meaning_of };

    ghost lawful = { standard_lawful };

    fn counts(&self) -> Counts {
        with_type!(self, t => t.counts())
    }

    fn read(&self, payload: &[u8], out: &mut [i64]) -> Result<usize, Refusal> {
        with_type!(self, t => t.read(payload, out))
    }

    fn write(&self, reading: &[i64], out: &mut [u8]) -> Result<usize, Refusal> {
        with_type!(self, t => t.write(reading, out))
    }
}
