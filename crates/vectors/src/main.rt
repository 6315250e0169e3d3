// Runs known payloads and readings through the books of the house, and prints a line for each.
#![tactic(auto)]

mod absent;
mod came;
mod given;
mod heating;
mod item;
mod moments;
mod numbers;
mod octets;
mod report;
mod shapes;
mod texts;
mod times;
mod trial;
mod vector;
mod voids;

use crate::absent::run_absent;
use crate::heating::HEATING;
use crate::moments::MOMENTS;
use crate::numbers::NUMBERS;
use crate::octets::OCTETS;
use crate::report::Report;
use crate::shapes::SHAPES;
use crate::texts::TEXTS;
use crate::times::TIMES;
use crate::trial::{run_pages, run_shapes};
use crate::voids::VOIDS;
use book::bound::Bound;
use books::general::GeneralBook;
use books::heating::HeatingBook;
use books::house::house_books;
use std::io;

fn main(rt: HostRuntime) -> io::Result<()> {
    let mut report = Report::new(rt);
    let house = house_books();
    for pages in [OCTETS, NUMBERS, TIMES, MOMENTS, VOIDS, TEXTS, HEATING] {
        run_pages(&house, pages, &mut report)?;
    }
    run_shapes(&house, SHAPES, &mut report)?;
    report.heading("The heating book bound before the general book:")?;
    let other = Bound {
        first: HeatingBook,
        second: GeneralBook,
    };
    for pages in [NUMBERS, HEATING] {
        run_pages(&other, pages, &mut report)?;
    }
    report.heading("Numbers of no type, in either order:")?;
    run_absent(&house, &other, &mut report)?;
    report.end()
}
