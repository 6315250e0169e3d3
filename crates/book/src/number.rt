// The number of a datapoint type.
ghost use Rattle.std.specs.Prelude.{Some};
ghost use Rattle.book.specs.Number.{show_number};

use std::fmt;

// A main and a sub number, printed as 9.001.
#[derive(Clone, Copy, PartialEq, Eq, Debug)]
pub struct TypeNumber {
    pub main: u16,
    pub sub: u16,
}

impl fmt::Display for TypeNumber {
    ghost output = { λ n. Some (show_number n) };

    #[tactic(auto, using(crate::proofs::Padded::padded_sub))]
    fn fmt<W: fmt::Write>(&self, f: &mut fmt::Formatter<W>) -> fmt::Result {
        let main = self.main;
        let sub = self.sub;
        write!(f, "{main}.{sub:03}")
    }
}
