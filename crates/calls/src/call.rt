// A call with all that it is given, and what comes of it.
use board::board::Board;
use book::book::Book;
use book::number::TypeNumber;
use datapoint::refusal::Refusal;

// The point comes first; a buffer is given by how many places it has.
#[derive(Debug)]
pub enum Call {
    Place(usize, u16, u16),
    Remove(usize),
    Receive(usize, &'static [u8]),
    Set(usize, &'static [i64]),
    Force(usize, &'static [i64]),
    Release(usize),
    Read(usize, usize),
    Send(usize, usize),
    List(usize),
}

// The answer, and whether the buffer is as it was.
#[derive(Drop)]
pub struct Came {
    pub answer: Result<usize, Refusal>,
    pub untouched: bool,
}

// The places of a buffer.
const ROOM: usize = 200;

// What the places of a buffer hold before the call.
const BLANK_FIELD: i64 = -77;

const BLANK_OCTET: u8 = 0xEE;

// A call that is given no buffer.
fn bare(answer: Result<usize, Refusal>) -> Came {
    Came {
        answer,
        untouched: true,
    }
}

// A call that is lent a buffer, whose places all hold the blank.
fn lent<T: Copy + PartialEq, F: FnOnce(&mut [T]) -> Result<usize, Refusal>>(
    blank: T,
    out: &mut [T],
    call: F,
) -> Came
    requires { F.IsAlwaysCallable call }
{
    let answer = call(out);
    Came {
        answer,
        untouched: out.iter().all(|place| *place == blank),
    }
}

pub fn make<B: Book>(board: &mut Board<B>, call: &Call) -> Came {
    match *call {
        Call::Place(point, main, sub) => bare(board.place(point, TypeNumber { main, sub })),
        Call::Remove(point) => bare(board.remove(point)),
        Call::Receive(point, payload) => bare(board.receive(point, payload)),
        Call::Set(point, reading) => bare(board.set(point, reading)),
        Call::Force(point, reading) => bare(board.force(point, reading)),
        Call::Release(point) => bare(board.release(point)),
        Call::Read(point, room) => {
            let mut out = [BLANK_FIELD; ROOM];
            let out = &mut out[..room.min(ROOM)];
            lent(BLANK_FIELD, out, |out| Ok(board.read(point, out)?.fields))
        }
        Call::Send(point, room) => {
            let mut out = [BLANK_OCTET; ROOM];
            let out = &mut out[..room.min(ROOM)];
            lent(BLANK_OCTET, out, |out| board.send(point, out))
        }
        Call::List(room) => {
            let mut out = [BLANK_OCTET; ROOM];
            let out = &mut out[..room.min(ROOM)];
            lent(BLANK_OCTET, out, |out| board.list(out))
        }
    }
}
