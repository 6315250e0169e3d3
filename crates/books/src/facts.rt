// Worked cases of the house's books, each proved of the call that it shows.
ghost use Rattle.std.specs.Prelude.{◌≡◌, [], ◌∷◌, pos};
ghost use Rattle.datapoint.specs.declared.refusal.Refusal.TheVariants.{IllegalPayload, UnknownType};
ghost use Rattle.datapoint.specs.Refusals.{answer};
ghost use Rattle.datapoint.specs.Calls.{delivered, refuse};

use crate::house::house_books;
use book::book::Book;
use book::number::TypeNumber;
use datapoint::refusal::Refusal;

// A heating mode with its status.
const MODE_WITH_STATUS: TypeNumber = TypeNumber {
    main: 201,
    sub: 100,
};

const TEMPERATURE: TypeNumber = TypeNumber { main: 9, sub: 1 };

const UNKNOWN: TypeNumber = TypeNumber { main: 99, sub: 1 };

// 201.100: 01 1F reads 1, 31.
pub fn mode_with_status(out: &mut [i64]) -> Result<usize, Refusal>
    ensures { (answer result, out.new) ≡ delivered (pos 1 ∷ (pos 31 ∷ [])) out.old }
{
    house_books().read(MODE_WITH_STATUS, &[0x01, 0x1f], out)
}

// 201.100: the second octet of 01 20 is no status.
pub fn mode_without_status(out: &mut [i64]) -> Result<usize, Refusal>
    ensures { (answer result, out.new) ≡ refuse IllegalPayload out.old }
{
    house_books().read(MODE_WITH_STATUS, &[0x01, 0x20], out)
}

// 9.001: 0C 1A reads 2100, which is 21 degrees.
pub fn temperature(out: &mut [i64]) -> Result<usize, Refusal>
    ensures { (answer result, out.new) ≡ delivered (pos 2100 ∷ []) out.old }
{
    house_books().read(TEMPERATURE, &[0x0c, 0x1a], out)
}

// 99.001: no book of the house has it.
pub fn unknown(out: &mut [i64]) -> Result<usize, Refusal>
    ensures { (answer result, out.new) ≡ refuse UnknownType out.old }
{
    house_books().read(UNKNOWN, &[0x00], out)
}
