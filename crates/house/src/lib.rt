// What houseboard prints.
#![tactic(auto)]

ghost use Rattle.std.specs.Prelude.{◌≡◌};
ghost use Rattle.datapoint.specs.Refusals.{answer};
ghost use Rattle.datapoint.specs.Calls.{delivered};
ghost use Rattle.house.specs.Printed.{printed};

use board::board::Board;
use board::fault::Fault;
use book::book::Book;
use datapoint::front::deliver;
use datapoint::refusal::Refusal;
use listing::draft::Draft;

// A longer text is not looked at.
pub const LONGEST: usize = 32768;

// The cause that is said of a longer text, with the line 0.
const TOO_LONG: u8 = 11;

// The list of the board that a text loads into, or what is said of its first faulty line, into the front of `out`.
pub fn report<B: Book + Drop>(book: B, text: &[u8], out: &mut [u8]) -> Result<usize, Refusal>
    ensures { (answer result, out.new) ≡ delivered (printed (B.Book.types book) text.now) out.old }
{
    if text.len() > LONGEST {
        return deliver(Draft::fault(0, TOO_LONG).text(), out);
    }
    let mut board = Board::new(book);
    match board.load(text) {
        Ok(_) => board.list(out),
        // A count of lines fits 64 bits on every machine, for which there is no `From`.
        Err(Fault { line, cause }) => deliver(
            Draft::fault(line as u64, cause.number()).text(),
            out,
        ),
    }
}
