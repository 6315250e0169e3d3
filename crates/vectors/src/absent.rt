// Type numbers that no book has: those beside each range, and a few far off.
use crate::given::Entry;
use crate::item::ROOM;
use crate::report::Report;
use book::book::Book;
use book::number::TypeNumber;
use datapoint::refusal::Refusal;
use std::io;

static ABSENT: [(u16, u16); 57] = [
    (0, 0),
    (1, 0),
    (1, 20),
    (2, 0),
    (2, 13),
    (3, 6),
    (3, 9),
    (4, 0),
    (4, 3),
    (5, 0),
    (5, 2),
    (5, 5),
    (5, 9),
    (5, 11),
    (6, 0),
    (6, 2),
    (6, 9),
    (6, 11),
    (7, 0),
    (7, 2),
    (8, 0),
    (8, 2),
    (9, 0),
    (9, 3),
    (9, 8),
    (10, 0),
    (10, 2),
    (11, 0),
    (11, 2),
    (12, 0),
    (12, 2),
    (13, 0),
    (13, 2),
    (14, 1),
    (15, 0),
    (16, 2),
    (17, 0),
    (17, 2),
    (18, 0),
    (18, 2),
    (19, 0),
    (19, 2),
    (20, 99),
    (20, 101),
    (20, 105),
    (23, 0),
    (23, 4),
    (26, 0),
    (26, 2),
    (200, 99),
    (200, 101),
    (201, 99),
    (201, 101),
    (201, 103),
    (232, 599),
    (232, 601),
    (65535, 65535),
];

// Whether the book has no type of that number.
fn is_absent<B: Book>(entry: &Entry<'_, B>) -> bool {
    let refusal = Refusal::UnknownType;
    entry.call(&[0u8], ROOM).is_refused(refusal) && entry.call(&[0i64], ROOM).is_refused(refusal)
}

// Runs calls that show that none of the numbers has a type, whichever of two books is bound first.
pub fn run_absent<A: Book, B: Book>(first: &A, second: &B, report: &mut Report) -> io::Result<()> {
    for (main, sub) in ABSENT.iter().copied() {
        let number = TypeNumber { main, sub };
        let due = Refusal::UnknownType;
        report.row(
            format_args!("{number}  no type  refused with {due}"),
            is_absent(&Entry {
                book: first,
                number,
            }) && is_absent(&Entry {
                book: second,
                number,
            }),
            "    has a type",
        )?;
    }
    Ok(())
}
