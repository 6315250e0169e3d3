// Calls of a book at one type number, and a row for each.
use crate::came::Came;
use crate::given::{Entry, Given};
use crate::item::{Item, Items, ROOM};
use crate::report::Report;
use crate::vector::{Page, Shape, Vector};
use book::book::Book;
use book::number::TypeNumber;
use datapoint::refusal::Refusal;
use std::fmt::Display;
use std::io;

// Runs each vector of the pages at each type number that its page is for.
pub fn run_pages<B: Book>(book: &B, pages: &[Page], report: &mut Report) -> io::Result<()> {
    for page in pages {
        for sub in page.first..=page.last {
            let main = page.main;
            let mut trial = Trial::new(book, TypeNumber { main, sub }, report);
            for vector in page.vectors {
                trial.run_vector(vector)?;
            }
        }
    }
    Ok(())
}

// Runs calls of other lengths, and with extreme fields, at the type number of each shape.
pub fn run_shapes<B: Book>(book: &B, shapes: &[Shape], report: &mut Report) -> io::Result<()> {
    for shape in shapes {
        let number = TypeNumber {
            main: shape.main,
            sub: shape.sub,
        };
        Trial::new(book, number, report).run_shape(shape)?;
    }
    Ok(())
}

#[derive(Drop)]
struct Trial<'a, B> {
    entry: Entry<'a, B>,
    report: &'a mut Report,
}

impl<'a, B: Book> Trial<'a, B> {
    fn new(book: &'a B, number: TypeNumber, report: &'a mut Report) -> Trial<'a, B> {
        Trial {
            entry: Entry { book, number },
            report,
        }
    }

    // What comes of a call into a buffer of that many places, and no more than ROOM.
    fn call<T: Given>(&self, given: &[T], room: usize) -> Came<T::Out> {
        self.entry.call(given, room)
    }

    // Prints a row at the type number.
    fn row(
        &mut self,
        said: impl Display + Drop,
        agrees: bool,
        came: impl Display + Drop,
    ) -> io::Result<()> {
        let number = self.entry.number;
        self.report
            .row(format_args!("{number}  {said}"), agrees, came)
    }

    // Prints a row for a call for which a refusal is due.
    fn refused<T: Item>(
        &mut self,
        given: impl Display + Drop,
        refusal: Refusal,
        came: &Came<T>,
    ) -> io::Result<()> {
        let answer = came.answer;
        self.row(
            format_args!("{given}  refused with {refusal}"),
            came.is_refused(refusal),
            format_args!("    came {answer:?}"),
        )
    }

    fn run_vector(&mut self, vector: &Vector) -> io::Result<()> {
        match *vector {
            Vector::Proper(payload, reading) => self.run_reading(payload, reading, payload),
            Vector::Loose(payload, reading, proper) => self.run_reading(payload, reading, proper),
            Vector::Illegal(payload) => self.run_illegal(payload),
            Vector::Unwritable(reading) => self.run_illegal(reading),
        }
    }

    // A payload reads so, and the reading goes out as the proper payload, which reads the same.
    fn run_reading(&mut self, payload: &[u8], reading: &[i64], proper: &[u8]) -> io::Result<()> {
        let came = self.call(payload, ROOM);
        let out = self.call(reading, ROOM);
        let again = self.call(proper, ROOM);
        let agrees = came.is(reading) && out.is(proper) && again.is(reading);
        self.row(
            format_args!(
                "{}  reads {}, goes out as {}",
                Items(payload),
                Items(reading),
                Items(proper)
            ),
            agrees,
            format_args!("    came {came:?}\n    out  {out:?}\n    came {again:?}"),
        )
    }

    // A payload or a reading that is not legal.
    fn run_illegal<T: Given>(&mut self, given: &[T]) -> io::Result<()> {
        let came = self.call(given, ROOM);
        self.refused(Items(given), T::ILLEGAL, &came)
    }

    fn run_shape(&mut self, shape: &Shape) -> io::Result<()> {
        self.run_lengths(shape.payload)?;
        self.run_lengths(shape.reading)?;
        self.run_short_buffer(shape.payload, shape.reading)?;
        self.run_short_buffer(shape.reading, shape.payload)?;
        self.run_long_buffer(shape.payload, shape.reading)?;
        self.run_long_buffer(shape.reading, shape.payload)?;
        let refusal = Refusal::IllegalReading;
        let came = self.with_extremes(shape.reading, i64::MIN);
        self.refused("the least field", refusal, &came)?;
        let came = self.with_extremes(shape.reading, i64::MAX);
        self.refused("the greatest field", refusal, &came)
    }

    // A payload or a reading that is empty, or an item too long.
    fn run_lengths<T: Given>(&mut self, given: &[T]) -> io::Result<()> {
        let refusal = Refusal::WrongLength { due: given.len() };
        let came = self.call::<T>(&[], ROOM);
        self.refused(format_args!("no {}", T::NAME), refusal, &came)?;
        let longer = padded(given);
        let longer = T::places(&longer);
        let count = given.len().saturating_add(1).min(longer.len());
        let came = self.call(&longer[..count], ROOM);
        self.refused(format_args!("{} more", T::ONE), refusal, &came)
    }

    // A buffer that is an item too short for what is due.
    fn run_short_buffer<T: Given>(&mut self, given: &[T], due: &[T::Out]) -> io::Result<()> {
        let needed = due.len();
        let came = self.call(given, needed.saturating_sub(1));
        let given = format_args!("into {} less", T::Out::ONE);
        self.refused(given, Refusal::ShortBuffer { needed }, &came)
    }

    // A buffer that is longer than needed keeps its rest.
    fn run_long_buffer<T: Given>(&mut self, given: &[T], due: &[T::Out]) -> io::Result<()> {
        let came = self.call(given, due.len().saturating_add(1));
        let answer = came.answer;
        self.row(
            format_args!("into {} more  keeps the rest", T::Out::ONE),
            came.is(due),
            format_args!("    came {answer:?}"),
        )
    }

    // What comes of the reading with each of its fields in turn, and then all, made extreme: the first that is not refused.
    fn with_extremes(&self, reading: &[i64], extreme: i64) -> Came<u8> {
        let count = reading.len().min(ROOM);
        // The place is what this is over: each field in turn is replaced.
        for place in 0..count {
            let mut fields = padded(reading);
            fields[place] = extreme;
            let came = self.call(&fields[..count], ROOM);
            if !came.is_refused(Refusal::IllegalReading) {
                return came;
            }
        }
        self.call(&[extreme; ROOM][..count], ROOM)
    }
}

// A buffer with the items at its front, and defaults behind them.
fn padded<T: Item>(items: &[T]) -> T::Buffer {
    let mut buffer = T::default().buffer();
    for (place, item) in T::places_mut(&mut buffer).iter_mut().zip(items) {
        *place = *item;
    }
    buffer
}
