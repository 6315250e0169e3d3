// A dial on the wall.
use crate::exhibit::Exhibit;
use crate::numbers::{DIMMING, TEMPERATURE};
use float::two_octets::Float;
use octet::step::Stepped;
use std::io;

pub fn visit(rt: &HostRuntime) -> io::Result<()> {
    let dial = Exhibit {
        number: TEMPERATURE,
        datapoint_type: Float::TEMPERATURE,
    };
    println!(rt; "The dial is turned to 21 degrees. The panel sends 0C 1A.")?;
    dial.show(rt, &[0x0C, 0x1A])?;
    println!(rt; "Ten degrees can be sent in several ways. One reading goes out in one way.")?;
    dial.show(rt, &[0x09, 0xF4])?;
    dial.show(rt, &[0x03, 0xE8])?;
    println!(rt; "Nothing is colder than -273 degrees.")?;
    dial.show(rt, &[0xA1, 0x55])?;
    println!(rt; "A payload of one octet is no temperature.")?;
    dial.show(rt, &[0x0C])?;
    let dimmer = Exhibit {
        number: DIMMING,
        datapoint_type: Stepped,
    };
    println!(rt; "The dimmer's button is let go: a break has no direction.")?;
    dimmer.show(rt, &[0x08])
}
