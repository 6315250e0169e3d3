// The two directions of a type.
ghost use Rattle.std.specs.Prelude.{◌≡◌, ℕ, ◌+◌, ◌≤◌, List, length, None, Option, IfOk, refl};
ghost use Rattle.std.specs.Option.{ok_or};
ghost use Rattle.datapoint.specs.declared.datapoint_type.Counts.{Counts};
ghost use Rattle.datapoint.specs.declared.refusal.Refusal.{Refusal};
ghost use Rattle.datapoint.specs.declared.refusal.Refusal.TheVariants.{IllegalPayload, IllegalReading};
ghost use Rattle.datapoint.specs.Meaning.{Meaning};
ghost use Rattle.datapoint.specs.Calls.{counts_of};
ghost use Rattle.joined.specs.Joined.{halves, appended, none_legal};
ghost use Rattle.joined.specs.Front.{front};

use datapoint::datapoint_type::{Counts, DatapointType};
use datapoint::refusal::Refusal;

// What every type does with items of one kind: it makes items of another kind, or refuses them.
pub trait Direction {
    type From;

    type To: Copy;

    // The refusal of items that are not legal.
    const REFUSAL: Refusal;

    ghost REFUSAL: { Refusal };

    // How many items are due, how many are made of them, and which.
    ghost due: { Counts → ℕ };

    ghost made: { Counts → ℕ };

    ghost makes: { Meaning → List Self.From → Option (List Self.To) };

    fn due(counts: Counts) -> usize
        ensures { result ≡ due counts };

    // Makes a type's items at the front of `out`, which has room for them, and answers how many.
    fn run<T: DatapointType>(
        of: &T,
        items: &[Self::From],
        out: &mut [Self::To],
    ) -> Result<usize, Refusal>
        requires due { length items.now ≡ due (counts_of (T.meaning of.now)) }
        requires room { made (counts_of (T.meaning of.now)) ≤ length out.old }
        ensures holds { front result out.new ≡ ok_or (makes (T.meaning of.now) items.now) REFUSAL }
        ensures ends { IfOk result (λ end. end ≡ made (counts_of (T.meaning of.now))) };

    // The items of two halves stand one after the other.
    ghost due_both: { (a b : Meaning) → due (counts_of (appended a b)) ≡ due (counts_of a) + due (counts_of b) };

    ghost made_both: { (a b : Meaning) → made (counts_of (appended a b)) ≡ made (counts_of a) + made (counts_of b) };

    ghost makes_both: { (a b : Meaning) → makes (appended a b) ≡ halves (due (counts_of a)) (makes a) (makes b) };

    ghost makes_none: { makes none_legal ≡ (λ xs. None) };
}

// Payloads become readings.
pub struct Reading;

impl Direction for Reading {
    type From = u8;

    type To = i64;

    const REFUSAL: Refusal = Refusal::IllegalPayload;

    ghost REFUSAL = { IllegalPayload };

    ghost due = { λ c. c.octets };

    ghost made = { λ c. c.fields };

    ghost makes = { λ m. m.reading };

    ghost due_both = { λ a b. refl };

    ghost made_both = { λ a b. refl };

    ghost makes_both = { λ a b. refl };

    ghost makes_none = { refl };

    fn due(counts: Counts) -> usize {
        counts.octets
    }

    fn run<T: DatapointType>(of: &T, items: &[u8], out: &mut [i64]) -> Result<usize, Refusal> {
        of.read(items, out).or(Err(Self::REFUSAL))
    }
}

// Readings become payloads.
pub struct Writing;

impl Direction for Writing {
    type From = i64;

    type To = u8;

    const REFUSAL: Refusal = Refusal::IllegalReading;

    ghost REFUSAL = { IllegalReading };

    ghost due = { λ c. c.fields };

    ghost made = { λ c. c.octets };

    ghost makes = { λ m. m.payload };

    ghost due_both = { λ a b. refl };

    ghost made_both = { λ a b. refl };

    ghost makes_both = { λ a b. refl };

    ghost makes_none = { refl };

    fn due(counts: Counts) -> usize {
        counts.fields
    }

    fn run<T: DatapointType>(of: &T, items: &[i64], out: &mut [u8]) -> Result<usize, Refusal> {
        of.write(items, out).or(Err(Self::REFUSAL))
    }
}
