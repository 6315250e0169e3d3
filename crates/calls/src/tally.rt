// The count of rows, and of those that differ.
use std::fmt;

#[derive(Default, Drop)]
pub struct Tally {
    rows: usize,
    differing: usize,
}

impl Tally {
    // Counts a row and answers what is printed of it.
    pub fn verdict(&mut self, agrees: bool) -> &'static str {
        self.rows = self.rows.saturating_add(1);
        if agrees {
            return "ok";
        }
        self.differing = self.differing.saturating_add(1);
        "DIFFERS"
    }
}

impl fmt::Display for Tally {
    fn fmt<W: fmt::Write>(&self, f: &mut fmt::Formatter<W>) -> fmt::Result {
        let rows = self.rows;
        let differing = self.differing;
        write!(f, "{rows} rows, {differing} differ")
    }
}
