// The books of a house.
ghost use Rattle.std.specs.Prelude.{◌≡◌};
ghost use Rattle.book.specs.Types.{bound};
ghost use Rattle.books.specs.Apart.{Apart, Named};
ghost use Rattle.books.specs.General.{general};
ghost use Rattle.books.specs.Heating.{heating};

use crate::general::GeneralBook;
use crate::heating::HeatingBook;
use book::book::Book;
use book::bound::Bound;

// The general book bound before the heating book.
#[tactic(auto, using(crate::proofs::Tables::apart, crate::proofs::Tables::named))]
pub fn house_books() -> Bound<GeneralBook, HeatingBook>
    ensures is { bound (⟦<GeneralBook as Book>⟧.types result.first) (⟦<HeatingBook as Book>⟧.types result.second) ≡ bound general heating }
    ensures apart { Apart }
    ensures named { Named }
{
    Bound {
        first: GeneralBook,
        second: HeatingBook,
    }
}
