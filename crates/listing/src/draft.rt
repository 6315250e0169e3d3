// A line as it is made up.
ghost use Rattle.std.specs.Prelude.{◌≡◌, ◌*◌, ◌≤◌, ◌++◌, length, take, codes, option_copied};
ghost use Rattle.std.specs.Fmt.{signed_decimal};
ghost use Rattle.listing.specs.Show.{padding, show_number, show_fields, show_reading, show_row, show_fault};
ghost use Rattle.listing.specs.Fields.{fields_in, row_of};

use crate::keys::{CAUSE, COMMA, DOT, END, FORCED, LINE, NONE, NORMAL, POINT, TYPE};
use crate::line::Line;
use crate::reading::Reading;
use crate::sheet::Sheet;
use book::number::TypeNumber;
use itoa::{Buffer, Integer};

// The longest line has room.
pub type Draft = Sheet<768>;

impl Sheet<768> {
    // The line of a placed point.
    pub fn line(line: &Line<&Reading>) -> Draft
        ensures { result ≡ show_row (row_of line.now) }
    {
        let mut draft = Draft::new();
        draft.push_row(line);
        draft
    }

    // What is said of a faulty line. A cause is the number that is printed: the causes are the board's, which stands on this.
    pub fn fault(line: u64, cause: u8) -> Draft
        ensures { result ≡ show_fault line cause }
    {
        let mut draft = Draft::new();
        draft.push_fault(line, cause);
        draft
    }
}

// The parts of a line, each behind its key and as far as there is room.
// No `write!`: it answers a `Result`, and a line is always made. Each clause says its own text, so a name for them all is no plainer.
impl<const CAP: usize> Sheet<CAP> {
    #[tactic(auto, using(crate::proofs::Written::pieces))]
    fn push_row(&mut self, line: &Line<&Reading>)
        ensures text { self.new ≡ take CAP (self.old ++ show_row (row_of line.now)) }
        ensures short { length (show_row (row_of line.now)) ≤ 768 }
    {
        self.push_integer(POINT, line.point);
        self.push_number(TYPE, line.number);
        self.push_reading(NORMAL, line.normal);
        self.push_reading(FORCED, line.forced);
        self.push(END);
    }

    #[tactic(auto, using(crate::proofs::Written::pieces))]
    fn push_fault(&mut self, line: u64, cause: u8)
        ensures { self.new ≡ take CAP (self.old ++ show_fault line cause) }
    {
        self.push_integer(LINE, line);
        self.push_integer(CAUSE, cause);
        self.push(END);
    }

    #[tactic(auto, using(crate::proofs::Written::pieces))]
    fn push_number(&mut self, key: &[u8], number: TypeNumber)
        ensures text { self.new ≡ take CAP (self.old ++ (key.now ++ show_number number)) }
        ensures short { length (show_number number) ≤ 13 }
    {
        self.push_integer(key, number.main);
        self.push(DOT);
        self.push_integer(zeros(number.sub), number.sub);
    }

    fn push_reading(&mut self, key: &[u8], reading: Option<&Reading>)
        ensures text { self.new ≡ take CAP (self.old ++ (key.now ++ show_reading (fields_in (option_copied reading.entry)))) }
        ensures short { length (show_reading (fields_in (option_copied reading.entry))) ≤ 336 }
    {
        match reading {
            None => {
                self.push(key);
                self.push(NONE);
            }
            Some(reading) => self.push_fields(key, reading.fields()),
        }
    }

    fn push_fields(&mut self, key: &[u8], fields: &[i64])
        ensures text { self.new ≡ take CAP (self.old ++ (key.now ++ show_fields fields.now)) }
        ensures short { length (show_fields fields.now) ≤ 21 * length fields.now }
    {
        let [first, rest @ ..] = fields else {
            return self.push(key);
        };
        self.push_integer(key, *first);
        for field in rest {
            self.push_next(*field);
        }
    }

    // A field behind another.
    fn push_next(&mut self, field: i64)
        ensures { self.new ≡ take CAP (self.old ++ (codes "," ++ signed_decimal field)) }
    {
        self.push_integer(COMMA, field);
    }

    fn push_integer<I: Integer>(&mut self, key: &[u8], n: I)
        ensures text { self.new ≡ take CAP (self.old ++ (key.now ++ I.text n)) }
        ensures short { length (I.text n) ≤ I.MAX_STR_LEN }
    {
        self.push(key);
        self.push(Buffer::new().format(n).as_bytes());
    }
}

// The zeros before a sub number of fewer than three digits.
fn zeros(n: u16) -> &'static [u8]
    ensures { result.now ≡ padding n }
{
    match n {
        0..=9 => b"00",
        10..=99 => b"0",
        _ => b"",
    }
}
