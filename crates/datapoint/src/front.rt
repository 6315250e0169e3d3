// The front of a caller's buffer.
ghost use Rattle.std.specs.Prelude.{◌≡◌};
ghost use Rattle.datapoint.specs.Refusals.{answer};
ghost use Rattle.datapoint.specs.Calls.{delivered};

use crate::refusal::Refusal;

// Copies `items` to the front of `out` and answers their count, or refuses a buffer that is too short.
pub fn deliver<T: Copy>(items: &[T], out: &mut [T]) -> Result<usize, Refusal>
    ensures { (answer result, out.new) ≡ delivered items.now out.old }
{
    let needed = items.len();
    if out.len() < needed {
        return Err(Refusal::ShortBuffer { needed });
    }
    out[..needed].copy_from_slice(items);
    Ok(needed)
}
