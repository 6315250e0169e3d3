// Reading a line from the front of a text.
ghost use Rattle.std.specs.Prelude.{◌≡◌, ◌<◌, length, IfSome};
ghost use Rattle.listing.specs.Read.{read_number, read_fields, read_placed, read_readings, read_row};
ghost use Rattle.listing.specs.Found.{found};
ghost use Rattle.listing.specs.Fields.{kept, lengthened};
ghost use Rattle.listing.specs.Line.{kept_in, held_of, both_of, line_said, row_said, got_as, read_held, read_said};
ghost use Rattle.listing.specs.Promise.{ReadsJustWhatItShows};

use crate::keys::{COMMA, DOT, END, FORCED, NONE, NORMAL, POINT, TYPE};
use crate::line::{Line, TooMany, Value};
use crate::numerals::{pass, read_field, read_sub, read_u16};
use crate::reading::Reading;
use book::number::TypeNumber;

fn read_number(text: &[u8]) -> Option<(TypeNumber, &[u8])>
    ensures { found result ≡ read_number text.now }
{
    let (main, rest) = read_u16(text)?;
    let rest = pass(rest, DOT)?;
    let (sub, rest) = read_sub(rest)?;
    Some((TypeNumber { main, sub }, rest))
}

// A reading and one more field, unless there are too many to be kept.
fn longer(reading: Result<Reading, TooMany>, field: i64) -> Result<Reading, TooMany>
    ensures { kept_in result ≡ lengthened (kept_in reading) field }
{
    reading?.with(field).ok_or(TooMany)
}

// Fields, unless there are too many to be kept.
fn read_fields(mut text: &[u8]) -> Option<(Result<Reading, TooMany>, &[u8])>
    ensures { got_as kept_in (found result) ≡ got_as kept (read_fields text.now) }
{
    let mut reading = Reading::new(&[]).ok_or(TooMany);
    loop {
        let (field, rest) = read_field(text)?;
        reading = longer(reading, field);
        match pass(rest, COMMA) {
            Some(behind) => text = behind,
            None => return Some((reading, rest)),
        }
    }
}

fn read_value(text: &[u8]) -> Option<(Value, &[u8])>
    ensures { got_as held_of (found result) ≡ read_held text.now }
{
    if let Some(rest) = pass(text, NONE) {
        return Some((None, rest));
    }
    let (reading, rest) = read_fields(text)?;
    Some((Some(reading), rest))
}

// The point and the type number of a line.
fn read_placed(text: &[u8]) -> Option<((u16, TypeNumber), &[u8])>
    ensures { found result ≡ read_placed text.now }
{
    let rest = pass(text, POINT)?;
    let (point, rest) = read_u16(rest)?;
    let rest = pass(rest, TYPE)?;
    let (number, rest) = read_number(rest)?;
    Some(((point, number), rest))
}

// The readings that end the line.
fn read_readings(text: &[u8]) -> Option<((Value, Value), &[u8])>
    ensures { got_as both_of (found result) ≡ read_readings read_held text.now }
{
    let rest = pass(text, NORMAL)?;
    let (normal, rest) = read_value(rest)?;
    let rest = pass(rest, FORCED)?;
    let (forced, rest) = read_value(rest)?;
    let rest = pass(rest, END)?;
    Some(((normal, forced), rest))
}

fn read_said(text: &[u8]) -> Option<(Line<Result<Reading, TooMany>>, &[u8])>
    ensures { got_as line_said (found result) ≡ read_said text.now }
{
    let ((point, number), rest) = read_placed(text)?;
    let ((normal, forced), rest) = read_readings(rest)?;
    let line = Line {
        point,
        number,
        normal,
        forced,
    };
    Some((line, rest))
}

// The line that begins the text, and the rest.
pub fn read_line(text: &[u8]) -> Option<(Line<Result<Reading, TooMany>>, &[u8])>
    ensures line { got_as line_said (found result) ≡ got_as row_said (read_row text.now) }
    ensures onward { IfSome result (λ p. length p.1.now < length text.now) }
    ensures law { ReadsJustWhatItShows }
{
    read_said(text)
}
