// Two boards: the panel's on the wall, and the server's.
use crate::numbers::{SWITCH, TEMPERATURE};
use crate::shown::Fields;
use board::board::Board;
use book::book::Book;
use books::house::house_books;
use datapoint::refusal::Refusal;
use std::io;
use std::io::Write;

// The most octets of a board's list.
const LONGEST: usize = 32768;

// Prints what a call answered.
fn step(rt: &HostRuntime, what: &str, answer: Result<usize, Refusal>) -> io::Result<()> {
    match answer {
        Ok(_) => println!(rt; "   {what}: done."),
        Err(refusal) => println!(rt; "   {what}: refused with {}.", refusal.number()),
    }
}

// Prints what a point tells.
fn told<B: Book>(rt: &HostRuntime, board: &Board<B>, point: usize) -> io::Result<()> {
    // Lent to the call, which answers how much of it is filled.
    let mut reading = [0; 16];
    if let Ok(telling) = board.read(point, &mut reading) {
        let mark = telling.mark;
        let fields = Fields(&reading[..telling.fields]);
        println!(rt; "   Point {point} tells, {mark:?}: {fields}.")?;
    }
    Ok(())
}

// Prints the board's list, and answers it: it stands at the front of the text that is lent.
fn listed<'a, B: Book>(
    rt: &HostRuntime,
    board: &Board<B>,
    text: &'a mut [u8],
) -> io::Result<&'a [u8]> {
    let length = board.list(text).unwrap_or(0);
    let list = &text[..length];
    rt.stdout().write_all(list)?;
    Ok(list)
}

// Points are placed, the dial's octets received, and a point forced: each step in its own words.
fn fill<B: Book>(rt: &HostRuntime, panel: &mut Board<B>) -> io::Result<()> {
    println!(rt; "The panel's board is empty. Two points are placed: 3 is the dial, 7 a lamp.")?;
    step(rt, "Place 3 as 9.001", panel.place(3, TEMPERATURE))?;
    step(rt, "Place 7 as 1.001", panel.place(7, SWITCH))?;
    step(rt, "Receive 0C 1A at 3", panel.receive(3, &[0x0C, 0x1A]))?;
    step(rt, "Set 7 to 0", panel.set(7, &[0]))?;
    println!(rt; "The lamp is forced on. A normal write is then refused.")?;
    step(rt, "Force 7 to 1", panel.force(7, &[1]))?;
    step(rt, "Set 7 to 0", panel.set(7, &[0]))?;
    told(rt, panel, 7)
}

pub fn visit(rt: &HostRuntime) -> io::Result<()> {
    let mut panel = Board::new(house_books());
    let mut server = Board::new(house_books());
    fill(rt, &mut panel)?;
    println!(rt; "The panel prints its list.")?;
    let mut text = [0; LONGEST];
    let list = listed(rt, &panel, &mut text)?;
    println!(rt; "The server loads that list, and prints its own.")?;
    let granted = server.load(list).is_ok();
    let same = listed(rt, &server, &mut [0; LONGEST])? == list && granted;
    println!(rt; "   The two lists are the same: {same}.")?;
    println!(rt; "The lamp is released at the server. Its ordinary reading is back.")?;
    step(rt, "Release 7", server.release(7))?;
    told(rt, &server, 7)
}
