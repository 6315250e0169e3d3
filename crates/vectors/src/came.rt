// What comes of a call, and the buffer after it.
use crate::item::Item;
use datapoint::refusal::Refusal;

#[derive(Debug, Drop)]
pub struct Came<T: Item> {
    pub answer: Result<usize, Refusal>,
    pub out: T::Buffer,
}

impl<T: Item> Came<T> {
    // Whether the items came, at the front of a buffer that keeps its rest.
    pub fn is(&self, items: &[T]) -> bool {
        self.answer == Ok(items.len())
            && T::places(&self.out).starts_with(items)
            && self.is_blank_from(items.len())
    }

    // Whether that refusal came, with the buffer as it was.
    pub fn is_refused(&self, refusal: Refusal) -> bool {
        self.answer == Err(refusal) && self.is_blank_from(0)
    }

    fn is_blank_from(&self, count: usize) -> bool {
        T::places(&self.out)
            .iter()
            .skip(count)
            .all(|place| *place == T::BLANK)
    }
}
