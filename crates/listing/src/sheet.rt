// A text that is made up in a place of fixed size.
ghost use Rattle.std.specs.Prelude.{◌≡◌, ◌+◌, ◌≤◌, [], ◌∷◌, ◌++◌, length, take};
ghost use Rattle.listing.specs.Pages.{with_all};

use arrayvec::CapacityError;
use std::marker::Model;

// A text of at most `CAP` octets: the first `len` of these, with zeros behind it.
#[derive(Clone, Copy)]
pub struct Sheet<const CAP: usize> {
    octets: [u8; CAP],
    len: usize,
}

impl<const CAP: usize> Model for Sheet<CAP> {
    ghost use Rattle.std.specs.Prelude.{◌≡◌, ℕ, ◌-◌, ◌≤◌, List, length, take, drop, replicate};
    ghost use Rattle.listing.specs.Zeros.{zero_filled, sheet_back};

    ghost Value = { List ℕ };

    ghost view = { λ s. take s.len s.octets };

    ghost invariant = { λ s. (s.len ≤ CAP) × (length s.octets ≡ CAP) × (drop s.len s.octets ≡ replicate (CAP - s.len) 0) };

    // The text alone gives the octets and their count.
    ghost inverse = { λ text. record { octets = zero_filled CAP text; len = length text } };

    ghost inverse_ok = { λ s h. sheet_back CAP s.len s.octets h.0 h.1 h.2 (λ octets len. record { octets = octets; len = len }) };
}

impl<const CAP: usize> Sheet<CAP> {
    // An empty text.
    pub fn new() -> Self
        ensures { result ≡ [] }
    {
        Sheet {
            octets: [0; CAP],
            len: 0,
        }
    }

    // The text so far.
    pub fn text(&self) -> &[u8]
        ensures value { result.now ≡ self.now }
        ensures fits { length result.now ≤ CAP }
    {
        &self.octets[..self.len]
    }

    // Adds these octets, as far as there is room. One by one: a piece is a few octets, too short for the copy of a block to pay.
    pub(crate) fn push(&mut self, octets: &[u8])
        ensures { self.new ≡ take CAP (self.old ++ octets.now) }
    {
        // Opens the text for the proof, which learns that it fits.
        let _ = &self.len;
        for octet in octets {
            self.push_octet(*octet);
        }
    }

    // Adds this octet, if there is room.
    fn push_octet(&mut self, octet: u8)
        ensures { self.new ≡ take CAP (self.old ++ (octet ∷ [])) }
    {
        if self.len < CAP {
            self.octets[self.len] = octet;
            self.len += 1;
        }
    }

    // Adds these octets, if there is room for all of them.
    pub(crate) fn try_push(&mut self, octets: &[u8]) -> Result<(), CapacityError>
        ensures { (result, self.new) ≡ with_all CAP self.old octets.now }
    {
        if octets.len() > CAP - self.len {
            return Err(CapacityError::new(()));
        }
        self.append(octets);
        Ok(())
    }

    // Adds these octets, for which there is room.
    fn append(&mut self, octets: &[u8])
        requires { length self.old + length octets.now ≤ CAP }
        ensures { self.new ≡ self.old ++ octets.now }
    {
        let end = self.len + octets.len();
        // A slice first: a part of an array of `CAP` octets is not covered by the borrow checker.
        let places = &mut self.octets[..];
        places[self.len..end].copy_from_slice(octets);
        self.len = end;
    }
}
