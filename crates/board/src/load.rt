// The table that a text says.
ghost use Rattle.std.specs.Prelude.{◌≡◌, ◌<◌, ◌≤◌, length, IfOk};
ghost use Rattle.listing.specs.Fields.{fields_in};
ghost use Rattle.listing.specs.Line.{held_of, line_said};
ghost use Rattle.listing.specs.Read.{read_row};
ghost use Rattle.model.specs.Load.{loaded};
ghost use Rattle.points.specs.Model.{placed_point};
ghost use Rattle.board.specs.Faults.{load_answer, cause_answer};
ghost use Rattle.board.specs.Load.{accepted_held, number_only, typed_held, front_of, front_said};
ghost use Rattle.board.specs.Table.{points_of};

use crate::fault::{Cause, Fault};
use crate::table::{Table, index, unplaced};
use book::book::Book;
use book::number::TypeNumber;
use listing::line::{Line, TooMany, Value};
use listing::read::read_line;
use listing::reading::Reading;
use points::placed::Placed;
use points::take::accept;

// A reading of a line, where the type accepts it.
fn accept_value<B: Book>(
    book: &B,
    number: TypeNumber,
    value: Value,
) -> Result<Option<Reading>, Cause>
    ensures { cause_answer fields_in result ≡ number_only (accepted_held (B.Book.types book.now number) (held_of value)) }
{
    // `map(..).transpose()` over a closure with two `?` is no plainer.
    let Some(reading) = value else {
        return Ok(None);
    };
    Ok(Some(accept(book, number, reading?.fields())?))
}

// What a line places.
fn place_line<B: Book>(book: &B, line: Line<Result<Reading, TooMany>>) -> Result<Placed, Cause>
    ensures { let said = line_said line in cause_answer placed_point result ≡ typed_held (B.Book.types book.now said.number) said }
{
    let Line {
        number,
        normal,
        forced,
        ..
    } = line;
    book.counts(number)?;
    Ok(Placed {
        number,
        normal: accept_value(book, number, normal)?,
        forced: accept_value(book, number, forced)?,
    })
}

// The point that the line at the front of a text names, what it places there, and the rest of the text.
// The line stands behind one for the point `last`.
fn read_point<'a, B: Book>(
    book: &B,
    last: u16,
    text: &'a [u8],
) -> Result<(u16, Placed, &'a [u8]), Cause>
    ensures said { cause_answer front_of result ≡ front_said (B.Book.types book.now) last (read_row text.now) }
    ensures onward { IfOk result (λ f. length f.2.now < length text.now) }
    ensures inside { IfOk result (λ f. (1 ≤ f.0) × (f.0 ≤ 48)) }
{
    let (line, rest) = read_line(text).ok_or(Cause::BrokenLine)?;
    let point = line.point;
    index(usize::from(point))?;
    if point <= last {
        return Err(Cause::NotAbove);
    }
    Ok((point, place_line(book, line)?, rest))
}

// The table that a text says, or its first faulty line.
pub fn read_table<B: Book>(book: &B, text: &[u8]) -> Result<Table, Fault>
    ensures { load_answer points_of result ≡ loaded (B.Book.types book.now) text.now }
{
    let mut points = unplaced();
    let mut rest = text;
    let mut last = 0;
    let mut line = 1;
    // An iterator over the lines is no plainer: its `next` would keep the rest of the text and the last point, as this loop does.
    while !rest.is_empty() {
        let (point, placed, next) = read_point(book, last, rest).map_err(|cause| Fault {
            line,
            cause,
        })?;
        points[usize::from(point) - 1] = Some(placed);
        last = point;
        rest = next;
        line += 1;
    }
    Ok(points)
}
