// A reading as a point keeps it.
ghost use Rattle.std.specs.Prelude.{◌≤◌};

mod fields;

// The first `count` of the places are the fields.
#[derive(Clone, Copy)]
pub struct Reading {
    count: usize,
    places: [i64; 16],
    ghost few: { count ≤ 16 },
}
