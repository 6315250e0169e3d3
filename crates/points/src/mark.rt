// What a point tells, and which calls it takes as it stands.
ghost use Rattle.std.specs.Prelude.{◌≡◌};
ghost use Rattle.points.specs.Marks.{mark_number, permitted};

use datapoint::refusal::Refusal;

// Whether a placed point tells nothing, its normal reading or its forced reading, with the number under which that is listed.
#[derive(Clone, Copy, PartialEq, Eq, Debug)]
pub enum Mark {
    Silent = 0,
    Normal = 1,
    Forced = 2,
}

// The calls that a placed point takes or refuses for what it tells.
#[derive(Clone, Copy, PartialEq, Eq, Debug)]
pub enum Call {
    Receive,
    Set,
    Release,
}

impl Mark {
    // The number under which the mark is listed.
    pub fn number(self) -> u8
        ensures { result ≡ mark_number self }
    {
        self as u8
    }

    // Whether a point that tells this takes the call.
    pub fn permits(self, call: Call) -> Result<(), Refusal>
        ensures { result ≡ permitted self call }
    {
        match (self, call) {
            (Mark::Forced, Call::Receive | Call::Set) => Err(Refusal::Overridden),
            (Mark::Silent | Mark::Normal, Call::Release) => Err(Refusal::NotOverridden),
            _ => Ok(()),
        }
    }
}
