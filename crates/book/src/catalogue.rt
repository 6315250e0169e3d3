// A book that finds its types.
ghost use Rattle.std.specs.Prelude.{◌≡◌};
ghost use Rattle.std.specs.Option.{option_map};

use crate::book::Book;
use crate::number::TypeNumber;
use datapoint::datapoint_type::DatapointType;

// A book that has each of its types as a value, and finds it by its number.
pub trait Catalogue: Book {
    // What stands for one of the book's types.
    type Type: DatapointType + Copy;

    // The type that has a number, if any has.
    fn type_of(&self, number: TypeNumber) -> Option<Self::Type>
        ensures { option_map Self.Type.meaning result ≡ Self.types self.now number };
}
