// The fields of a reading.
ghost use Rattle.std.specs.Prelude.{◌≡◌, [], ◌∷◌, ◌++◌};
ghost use Rattle.std.specs.Cmp.Lexicographic.{pointwise};
ghost use Rattle.std.specs.Cmp.Rules.{comparing};
ghost use Rattle.std.specs.Ordering.{int_eq, on};
ghost use Rattle.std.proofs.Common.{rules};
ghost use Rattle.listing.specs.Fields.{fields_of, fields_in, kept};

use crate::reading::Reading;
use std::fmt;

impl Reading {
    // A reading of these numbers, unless there are more than sixteen.
    pub fn new(numbers: &[i64]) -> Option<Reading>
        ensures { fields_in result ≡ kept numbers.now }
    {
        let count = numbers.len();
        if count > 16 {
            return None;
        }
        let mut places = [0; 16];
        places[0..count].copy_from_slice(numbers);
        Some(Reading { count, places })
    }

    // The fields in their order.
    pub fn fields(&self) -> &[i64]
        ensures { result.now ≡ fields_of self.now }
    {
        &self.places[0..self.count]
    }

    // The reading and one more field, unless it has sixteen.
    pub fn with(&self, field: i64) -> Option<Reading>
        ensures { fields_in result ≡ kept (fields_of self.now ++ (field ∷ [])) }
    {
        if self.count == 16 {
            return None;
        }
        let mut places = self.places;
        places[self.count] = field;
        Some(Reading {
            count: self.count + 1,
            places,
        })
    }
}

// Readings are equal where their fields are.
impl PartialEq for Reading {
    ghost eq = { on fields_of (pointwise int_eq) };

    ghost laws = { Prim.search (comparing, rules) };

    fn eq(&self, other: &Reading) -> bool {
        self.fields() == other.fields()
    }
}

impl Eq for Reading {
    ghost laws = { Prim.search (comparing, rules) };
}

// A reading prints as the list of its fields.
impl fmt::Debug for Reading {
    fn fmt<W: fmt::Write>(&self, f: &mut fmt::Formatter<W>) -> fmt::Result {
        f.debug_list().entries(self.fields()).finish()
    }
}
