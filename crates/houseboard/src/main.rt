// Loads the list on standard input into an empty board over the house's books, and prints what `report` says.
#![tactic(auto)]

use arrayvec::ArrayVec;
use books::house::house_books;
use house::{LONGEST, report};
use std::io;
use std::io::{Read, Write};

// One octet more than a list may have, so that a longer input is seen to be longer.
const LOOKED_AT: usize = LONGEST + 1;

fn main(rt: HostRuntime) -> io::Result<()> {
    let mut text = ArrayVec::<u8, LOOKED_AT>::new();
    io::copy(&mut rt.stdin().take(LOOKED_AT as u64), &mut text)?;
    // Lent to the call, which answers how much of it is filled.
    let mut out = [0; LONGEST];
    if let Ok(count) = report(house_books(), &text, &mut out) {
        rt.stdout().write_all(&out[..count])?;
    }
    Ok(())
}
