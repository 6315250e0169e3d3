// The board.
ghost use Rattle.std.specs.Prelude.{◌≡◌, length};
ghost use Rattle.datapoint.specs.Refusals.{answer};
ghost use Rattle.model.specs.Points.{empty};
ghost use Rattle.model.specs.Calls.{at_point, look_at, placing, removing, receiving, setting, overriding, releasing, reading_out, sending_out, listing_out};
ghost use Rattle.model.specs.Load.{loading};
ghost use Rattle.model.specs.Theorem.{ListTheorem};
ghost use Rattle.model.specs.Sound.{Soundness};
ghost use Rattle.points.specs.Model.{telling_answer};
ghost use Rattle.board.specs.Board.{on_points};
ghost use Rattle.board.specs.Faults.{load_answer};

use crate::fault::Fault;
use crate::lines::lines;
use crate::load::read_table;
use crate::table::{Table, at_placed, index, placed, unplaced};
use book::book::Book;
use book::number::TypeNumber;
use datapoint::front::deliver;
use datapoint::refusal::Refusal;
use points::placed::{Placed, Telling};
use std::marker::Model;

// Its book, which never changes, and its points.
#[derive(Drop)]
pub struct Board<B> {
    book: B,
    points: Table,
}

impl<B> Model for Board<B> {
    ghost use Rattle.board.specs.Board.{Board as Seen};
    ghost use Rattle.board.specs.Table.{points_of};

    ghost Value = { Seen B };

    ghost view = { λ b. record { book = b.book; points = points_of b.points } };
}

impl<B: Book> Board<B> {
    // An empty board over a book.
    pub fn new(book: B) -> Board<B>
        ensures empty { result ≡ record { book = book; points = empty } }
        ensures lists { ListTheorem (B.Book.types result.book) }
        ensures sound { Soundness (B.Book.types result.book) }
    {
        Board {
            book,
            points: unplaced(),
        }
    }

    // An unplaced point gets a type number of the book, and is silent.
    pub fn place(&mut self, point: usize, number: TypeNumber) -> Result<usize, Refusal>
        ensures { (answer result, self.new) ≡ on_points (at_point point (placing (B.Book.types self.old.book) number)) self.old }
    {
        let at = index(point)?;
        if self.points[at].is_some() {
            return Err(Refusal::AlreadyPlaced);
        }
        self.book.counts(number)?;
        self.points[at] = Some(Placed {
            number,
            normal: None,
            forced: None,
        });
        Ok(0)
    }

    // The point is unplaced.
    pub fn remove(&mut self, point: usize) -> Result<usize, Refusal>
        ensures { (answer result, self.new) ≡ on_points (at_point point removing) self.old }
    {
        let at = index(point)?;
        self.points[at].take().ok_or(Refusal::NotPlaced)?;
        Ok(0)
    }

    // A payload's reading becomes the normal reading. This, `set`, `force` and `release` only name their step.
    pub fn receive(&mut self, point: usize, payload: &[u8]) -> Result<usize, Refusal>
        ensures { (answer result, self.new) ≡ on_points (at_point point (receiving (B.Book.types self.old.book) payload.now)) self.old }
    {
        at_placed(&mut self.points, point, |placed| {
            placed.receive(&self.book, payload)
        })
    }

    // A legal reading becomes the normal reading.
    pub fn set(&mut self, point: usize, reading: &[i64]) -> Result<usize, Refusal>
        ensures { (answer result, self.new) ≡ on_points (at_point point (setting (B.Book.types self.old.book) reading.now)) self.old }
    {
        at_placed(
            &mut self.points,
            point,
            |placed| placed.set(&self.book, reading),
        )
    }

    // A legal reading becomes the forced reading, in place of an earlier one.
    pub fn force(&mut self, point: usize, reading: &[i64]) -> Result<usize, Refusal>
        ensures { (answer result, self.new) ≡ on_points (at_point point (overriding (B.Book.types self.old.book) reading.now)) self.old }
    {
        at_placed(&mut self.points, point, |placed| {
            placed.force(&self.book, reading)
        })
    }

    // The forced reading is dropped.
    pub fn release(&mut self, point: usize) -> Result<usize, Refusal>
        ensures { (answer result, self.new) ≡ on_points (at_point point releasing) self.old }
    {
        at_placed(&mut self.points, point, |placed| placed.release())
    }

    // The told reading, into the front of `out`.
    pub fn read(&self, point: usize, out: &mut [i64]) -> Result<Telling, Refusal>
        ensures { (telling_answer result, out.new) ≡ look_at point reading_out self.now.points out.old }
    {
        placed(&self.points, point)?.read(out)
    }

    // The proper payload of the told reading, into the front of `out`.
    pub fn send(&self, point: usize, out: &mut [u8]) -> Result<usize, Refusal>
        ensures { (answer result, out.new) ≡ look_at point (sending_out (B.Book.types self.now.book)) self.now.points out.old }
    {
        placed(&self.points, point)?.send(&self.book, out)
    }

    // The board's list, into the front of `out`.
    pub fn list(&self, out: &mut [u8]) -> Result<usize, Refusal>
        ensures list { (answer result, out.new) ≡ listing_out self.now.points out.old }
        ensures places { length self.now.points ≡ 48 }
    {
        deliver(lines(&self.points).text(), out)
    }

    // The whole board becomes what the text says, or stays as it is.
    pub fn load(&mut self, text: &[u8]) -> Result<usize, Fault>
        ensures { (load_answer (λ n. n) result, self.new) ≡ on_points (loading (B.Book.types self.old.book) text.now) self.old }
    {
        self.points = read_table(&self.book, text)?;
        Ok(0)
    }
}
