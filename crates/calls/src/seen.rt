// All that can be seen of a board at once: its list, and what each point tells.
use board::board::Board;
use book::book::Book;
use datapoint::refusal::Refusal;

const ROOM: usize = 400;

#[derive(PartialEq, Drop)]
pub struct Seen {
    list: [u8; ROOM],
    length: usize,
    points: [Told; 48],
}

// The type number, the mark's number and the fields, or the refusal.
#[derive(Clone, Copy, PartialEq)]
pub struct Told {
    answer: Result<(u16, u16, u8, usize), Refusal>,
    fields: [i64; 16],
}

impl Told {
    fn by<B: Book>(board: &Board<B>, point: usize) -> Told {
        let mut fields = [0; 16];
        let answer = board.read(point, &mut fields).map(|telling| {
            let number = telling.number;
            (
                number.main,
                number.sub,
                telling.mark.number(),
                telling.fields,
            )
        });
        Told { answer, fields }
    }
}

impl Seen {
    pub fn of<B: Book>(board: &Board<B>) -> Seen {
        let mut list = [0; ROOM];
        let length = board.list(&mut list).unwrap_or(0);
        let mut points = [Told::by(board, 0); 48];
        for (point, told) in (1..).zip(points.iter_mut()) {
            *told = Told::by(board, point);
        }
        Seen {
            list,
            length,
            points,
        }
    }

    pub fn list(&self) -> &[u8] {
        &self.list[..self.length.min(ROOM)]
    }
}
