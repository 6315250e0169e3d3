// The books of the house.
use crate::numbers::{MODE_WITH_STATUS, NOWHERE};
use crate::shown::{Fields, Octets};
use book::book::Book;
use book::number::TypeNumber;
use books::house::house_books;
use std::io;

// Prints what a payload reads as through a book, or the number of the refusal.
fn show<B: Book>(rt: &HostRuntime, book: &B, number: TypeNumber, payload: &[u8]) -> io::Result<()> {
    let given = Octets(payload);
    print!(rt; "   As {number}, {given} ")?;
    // Lent to the call, which answers how much of it is filled.
    let mut reading = [0; 16];
    match book.read(number, payload, &mut reading) {
        Ok(count) => println!(rt; "gives {}.", Fields(&reading[..count])),
        Err(refusal) => println!(rt; "is refused with {}.", refusal.number()),
    }
}

pub fn visit(rt: &HostRuntime) -> io::Result<()> {
    let books = house_books();
    println!(rt;
        "The heating sends its mode with a status. The heating book, bound behind the general one, has that type."
    )?;
    show(rt, &books, MODE_WITH_STATUS, &[0x01, 0x1F])?;
    println!(rt; "No book has the number {NOWHERE}.")?;
    show(rt, &books, NOWHERE, &[0x00])
}
