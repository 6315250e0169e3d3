// A clock and a name plate.
use crate::exhibit::Exhibit;
use crate::numbers::{NAME, TIME_OF_DAY};
use clock::time::TimeOfDay;
use std::io;
use text::text::Text;

pub fn visit(rt: &HostRuntime) -> io::Result<()> {
    let clock = Exhibit {
        number: TIME_OF_DAY,
        datapoint_type: TimeOfDay,
    };
    println!(rt; "The clock says Wednesday, 14:30:05.")?;
    clock.show(rt, &[0x6E, 0x1E, 0x05])?;
    let plate = Exhibit {
        number: NAME,
        datapoint_type: Text::ASCII,
    };
    println!(rt; "The name plate says AB. What stands behind the end of a text is not told.")?;
    plate.show(rt, &[0x41, 0x42, 0x00, 0x43, 0, 0, 0, 0, 0, 0, 0, 0, 0, 0])
}
