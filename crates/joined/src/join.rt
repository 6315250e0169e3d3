// Two types joined into one.
ghost use Rattle.std.specs.Prelude.{◌≡◌, ◌+◌, ◌≤◌, ◌==◌, length, IfOk};
ghost use Rattle.std.specs.Option.{ok_or};
ghost use Rattle.datapoint.specs.Refusals.{answer};
ghost use Rattle.datapoint.specs.Calls.{counts_of, sized_or, delivered_or};
ghost use Rattle.datapoint.specs.Shapes.{when};
ghost use Rattle.joined.specs.Joined.{both, appended, fit, joined};
ghost use Rattle.joined.specs.Front.{front};
ghost use Rattle.joined.specs.Laws.{joined_lawful};

use crate::direction::{Direction, Reading, Writing};
use datapoint::datapoint_type::{Counts, DatapointType};
use datapoint::front::deliver;
use datapoint::refusal::Refusal;

// The most octets of a payload.
const MOST_OCTETS: usize = 14;

// The most fields of a reading.
const MOST_FIELDS: usize = 16;

// The first type's octets and fields stand before the second's.
#[derive(Clone, Copy, PartialEq, Eq, Debug)]
pub struct Joined<A, B> {
    pub first: A,
    pub second: B,
}

impl<A: DatapointType, B: DatapointType> Joined<A, B> {
    // The counts of both halves together, where a type can have so many.
    fn sums(&self) -> Option<Counts>
        ensures { let a = A.meaning self.now.first in
            let b = B.meaning self.now.second in
            result ≡ when (fit a b) (counts_of (appended a b)) }
    {
        let first = self.first.counts();
        let second = self.second.counts();
        let octets = first.octets + second.octets;
        let fields = first.fields + second.fields;
        (octets <= MOST_OCTETS && fields <= MOST_FIELDS).then_some(Counts { octets, fields })
    }

    // Makes the items of both halves at the front of `out`, and answers where they end.
    // A refusal may leave the first half there.
    fn both<D: Direction>(
        &self,
        first: &[D::From],
        second: &[D::From],
        out: &mut [D::To],
    ) -> Result<usize, Refusal>
        requires due_first { length first.now ≡ D.due (counts_of (A.meaning self.now.first)) }
        requires due_second { length second.now ≡ D.due (counts_of (B.meaning self.now.second)) }
        requires room { D.made (counts_of (A.meaning self.now.first)) + D.made (counts_of (B.meaning self.now.second)) ≤ length out.old }
        ensures holds { front result out.new ≡ ok_or (both (D.makes (A.meaning self.now.first) first.now) (D.makes (B.meaning self.now.second) second.now)) D.REFUSAL }
        ensures ends { IfOk result (λ end. end ≡ D.made (counts_of (A.meaning self.now.first)) + D.made (counts_of (B.meaning self.now.second))) }
    {
        let middle = D::run(&self.first, first, out)?;
        let rest = D::run(&self.second, second, &mut out[middle..])?;
        Ok(middle + rest)
    }

    // Makes the items of both halves in `space`, and delivers them.
    fn run<D: Direction>(
        &self,
        items: &[D::From],
        space: &mut [D::To],
        out: &mut [D::To],
    ) -> Result<usize, Refusal>
        requires room { D.made (counts_of (joined (A.meaning self.now.first) (B.meaning self.now.second))) ≤ length space.old }
        ensures { let m = joined (A.meaning self.now.first) (B.meaning self.now.second) in
            let due = D.due (counts_of m) in
            (answer result, out.new) ≡ sized_or (length items.now == due) due (delivered_or D.REFUSAL (D.makes m items.now) out.old) out.old }
    {
        let due = D::due(self.counts());
        if items.len() != due {
            return Err(Refusal::WrongLength { due });
        }
        // A test: by `ok_or(..)?` the proof that the refusal leaves `out` as it was didn't close.
        if self.sums().is_none() {
            return Err(D::REFUSAL);
        }
        let (first, second) = items.split_at(D::due(self.first.counts()));
        let end = self.both::<D>(first, second, space)?;
        deliver(&space[0..end], out)
    }
}

impl<A: DatapointType, B: DatapointType> DatapointType for Joined<A, B> {
    ghost meaning = { λ s. joined (A.meaning s.first) (B.meaning s.second) };

    ghost lawful = { λ s. joined_lawful _ _ (A.lawful s.first) (B.lawful s.second) };

    fn counts(&self) -> Counts {
        self.sums().unwrap_or(Counts {
            octets: MOST_OCTETS,
            fields: MOST_FIELDS,
        })
    }

    fn read(&self, payload: &[u8], out: &mut [i64]) -> Result<usize, Refusal> {
        self.run::<Reading>(payload, &mut [0; MOST_FIELDS], out)
    }

    fn write(&self, reading: &[i64], out: &mut [u8]) -> Result<usize, Refusal> {
        self.run::<Writing>(reading, &mut [0; MOST_OCTETS], out)
    }
}
