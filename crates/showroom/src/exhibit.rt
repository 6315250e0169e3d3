// A datapoint type on show.
use crate::shown::{Fields, Octets};
use book::number::TypeNumber;
use datapoint::datapoint_type::DatapointType;
use datapoint::refusal::Refusal;
use std::io;

// A type, under a number that it has.
#[derive(Drop)]
pub struct Exhibit<T> {
    pub number: TypeNumber,
    pub datapoint_type: T,
}

impl<T: DatapointType> Exhibit<T> {
    // A payload's reading, and how that reading goes out.
    fn exchange<'a>(
        &self,
        payload: &[u8],
        reading: &'a mut [i64],
        out: &'a mut [u8],
    ) -> Result<(&'a [i64], &'a [u8]), Refusal> {
        let count = self.datapoint_type.read(payload, reading)?;
        let fields = &reading[..count];
        let count = self.datapoint_type.write(fields, out)?;
        Ok((fields, &out[..count]))
    }

    // Prints what a payload reads as and how that reading goes out, or the number of the refusal.
    pub fn show(&self, rt: &HostRuntime, payload: &[u8]) -> io::Result<()> {
        let number = self.number;
        let given = Octets(payload);
        print!(rt; "   Read as {number}, {given} ")?;
        match self.exchange(payload, &mut [0; 16], &mut [0; 14]) {
            Ok((fields, octets)) => {
                let fields = Fields(fields);
                let sent = Octets(octets);
                println!(rt; "gives {fields} and goes out as {sent}.")
            }
            Err(refusal) => println!(rt; "is refused with {}.", refusal.number()),
        }
    }
}
