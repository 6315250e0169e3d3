// How payloads and readings are shown. One impl for both, over a trait of their gaps and digits, is longer than the two.
use std::fmt;

// Octets as two hexadecimal digits each.
#[derive(Drop)]
pub struct Octets<'a>(pub &'a [u8]);

impl<'a> fmt::Display for Octets<'a> {
    fn fmt<W: fmt::Write>(&self, f: &mut fmt::Formatter<W>) -> fmt::Result {
        let mut gap = "";
        for octet in self.0 {
            write!(f, "{gap}{octet:02X}")?;
            gap = " ";
        }
        Ok(())
    }
}

// Fields in decimal, with commas.
#[derive(Drop)]
pub struct Fields<'a>(pub &'a [i64]);

impl<'a> fmt::Display for Fields<'a> {
    fn fmt<W: fmt::Write>(&self, f: &mut fmt::Formatter<W>) -> fmt::Result {
        let mut comma = "";
        for field in self.0 {
            write!(f, "{comma}{field}")?;
            comma = ", ";
        }
        Ok(())
    }
}
