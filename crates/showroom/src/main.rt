// A visit to the showroom: what the library does, step by step.
#![tactic(auto)]

use std::io;

mod dial;
mod exhibit;
mod numbers;
mod plate;
mod shelf;
mod shown;
mod wall;

fn main(rt: HostRuntime) -> io::Result<()> {
    dial::visit(&rt)?;
    plate::visit(&rt)?;
    shelf::visit(&rt)?;
    wall::visit(&rt)
}
