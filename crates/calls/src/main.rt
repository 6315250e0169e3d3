// Makes calls that are refused, and loads texts at the edges of the form, and prints a line for each.
#![tactic(auto)]

mod call;
mod refused;
mod seen;
mod tally;
mod texts;

use crate::call::{Call, make};
use crate::refused::REFUSED;
use crate::seen::Seen;
use crate::tally::Tally;
use crate::texts::{Due, TEXTS};
use board::board::Board;
use board::fault::Fault;
use book::book::Book;
use book::number::TypeNumber;
use books::house::house_books;
use datapoint::refusal::Refusal;
use std::io;

// Point 1 has a reading, point 2 is forced, point 3 is silent, and the others are unplaced.
fn fill<B: Book>(board: &mut Board<B>) -> Result<usize, Refusal> {
    board.place(1, TypeNumber { main: 9, sub: 1 })?;
    board.receive(1, &[0x0C, 0x1A])?;
    board.place(2, TypeNumber { main: 1, sub: 1 })?;
    board.set(2, &[0])?;
    board.force(2, &[1])?;
    board.place(3, TypeNumber { main: 16, sub: 0 })
}

// A refused call leaves the board as it was, and its buffer.
fn run_refused<B: Book>(
    rt: &HostRuntime,
    board: &mut Board<B>,
    call: &Call,
    due: Refusal,
    tally: &mut Tally,
) -> io::Result<()> {
    let before = Seen::of(board);
    let came = make(board, call);
    let agrees = came.answer == Err(due) && came.untouched && before == Seen::of(board);
    let verdict = tally.verdict(agrees);
    println!(rt; "{call:?}  {due:?}  {verdict}")
}

// A text that loads is the board's list afterwards; one that does not leaves the board as it was.
fn run_text<B: Book>(
    rt: &HostRuntime,
    board: &mut Board<B>,
    text: &str,
    due: &Due,
    tally: &mut Tally,
) -> io::Result<()> {
    let before = Seen::of(board);
    let answer = board.load(text.as_bytes());
    let after = Seen::of(board);
    let agrees = match *due {
        Due::Loads => answer == Ok(0) && after.list() == text.as_bytes(),
        Due::Faulty(line, cause) => answer == Err(Fault { line, cause }) && after == before,
    };
    let verdict = tally.verdict(agrees);
    println!(rt; "{text:?}  {due:?}  {verdict}")
}

fn main(rt: HostRuntime) -> io::Result<()> {
    let mut tally = Tally::default();
    let mut board = Board::new(house_books());
    let verdict = tally.verdict(fill(&mut board).is_ok());
    println!(rt; "Point 1 has a reading, 2 is forced, 3 is silent  {verdict}")?;
    for (call, due) in REFUSED.iter() {
        run_refused(&rt, &mut board, call, *due, &mut tally)?;
    }
    for (text, due) in TEXTS.iter() {
        run_text(&rt, &mut board, text, due, &mut tally)?;
    }
    println!(rt; "{tally}")
}
