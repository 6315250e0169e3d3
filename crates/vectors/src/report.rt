// The rows that are printed, and their counts.
use std::fmt::Display;
use std::io;

#[derive(Drop)]
pub struct Report {
    rt: HostRuntime,
    rows: usize,
    differing: usize,
}

impl Report {
    pub fn new(rt: HostRuntime) -> Report {
        Report {
            rt,
            rows: 0,
            differing: 0,
        }
    }

    // Prints a line over rows.
    pub fn heading(&self, text: &str) -> io::Result<()> {
        println!(self.rt; "{text}")
    }

    // Prints and counts a row, with what came in place of what was due below one that differs.
    pub fn row(
        &mut self,
        said: impl Display + Drop,
        agrees: bool,
        came: impl Display + Drop,
    ) -> io::Result<()> {
        self.rows = self.rows.saturating_add(1);
        if agrees {
            return println!(self.rt; "{said}  ok");
        }
        self.differing = self.differing.saturating_add(1);
        println!(self.rt; "{said}  DIFFERS")?;
        println!(self.rt; "{came}")
    }

    // Prints how many rows there are and how many differ.
    pub fn end(&self) -> io::Result<()> {
        println!(self.rt; "{} rows, {} differ", self.rows, self.differing)
    }
}
