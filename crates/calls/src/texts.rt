// Texts at the edges of the form: which load, and what is said of the others.
use crate::texts::Due::{Faulty, Loads};
use board::fault::Cause;
use board::fault::Cause::{
    BrokenLine, IllegalReading, NoSuchPoint, NotAbove, UnknownType, WrongLength,
};

// What is due when a text is loaded.
#[derive(Debug)]
pub enum Due {
    Loads,
    // The first faulty line, and its cause.
    Faulty(usize, Cause),
}

pub static TEXTS: [(&'static str, Due); 88] = [
    ("", Loads),
    (
        "point=3 type=9.001 normal=2100 forced=none\npoint=7 type=1.001 normal=none forced=1\n",
        Loads,
    ),
    // Points, of which the first is 1 and the last 48.
    (
        "point=1 type=1.001 normal=none forced=none\npoint=48 type=1.001 normal=none forced=none\n",
        Loads,
    ),
    (
        "point=0 type=1.001 normal=none forced=none\n",
        Faulty(1, NoSuchPoint),
    ),
    (
        "point=49 type=1.001 normal=none forced=none\n",
        Faulty(1, NoSuchPoint),
    ),
    (
        "point=65535 type=1.001 normal=none forced=none\n",
        Faulty(1, NoSuchPoint),
    ),
    (
        "point=65536 type=1.001 normal=none forced=none\n",
        Faulty(1, BrokenLine),
    ),
    (
        "point=18446744073709551617 type=1.001 normal=none forced=none\n",
        Faulty(1, BrokenLine),
    ),
    (
        "point=-1 type=1.001 normal=none forced=none\n",
        Faulty(1, BrokenLine),
    ),
    (
        "point=+1 type=1.001 normal=none forced=none\n",
        Faulty(1, BrokenLine),
    ),
    (
        "point=01 type=1.001 normal=none forced=none\n",
        Faulty(1, BrokenLine),
    ),
    (
        "point=00 type=1.001 normal=none forced=none\n",
        Faulty(1, BrokenLine),
    ),
    (
        "point= type=1.001 normal=none forced=none\n",
        Faulty(1, BrokenLine),
    ),
    (
        "point=1a type=1.001 normal=none forced=none\n",
        Faulty(1, BrokenLine),
    ),
    // Points rise from line to line.
    (
        "point=2 type=1.001 normal=none forced=none\npoint=2 type=1.001 normal=none forced=none\n",
        Faulty(2, NotAbove),
    ),
    (
        "point=2 type=1.001 normal=none forced=none\npoint=1 type=1.001 normal=none forced=none\n",
        Faulty(2, NotAbove),
    ),
    (
        "point=2 type=1.001 normal=none forced=none\npoint=3 type=1.001 normal=none forced=none\n",
        Loads,
    ),
    // Type numbers. A sub number has at least three digits, and no more than it needs.
    (
        "point=1 type=0.000 normal=none forced=none\n",
        Faulty(1, UnknownType),
    ),
    (
        "point=1 type=9.003 normal=none forced=none\n",
        Faulty(1, UnknownType),
    ),
    (
        "point=1 type=65535.65535 normal=none forced=none\n",
        Faulty(1, UnknownType),
    ),
    (
        "point=1 type=65536.001 normal=none forced=none\n",
        Faulty(1, BrokenLine),
    ),
    (
        "point=1 type=9.65536 normal=none forced=none\n",
        Faulty(1, BrokenLine),
    ),
    ("point=1 type=232.600 normal=none forced=none\n", Loads),
    ("point=1 type=5.010 normal=none forced=none\n", Loads),
    (
        "point=1 type=1.1000 normal=none forced=none\n",
        Faulty(1, UnknownType),
    ),
    (
        "point=1 type=1.10000 normal=none forced=none\n",
        Faulty(1, UnknownType),
    ),
    (
        "point=1 type=1.01000 normal=none forced=none\n",
        Faulty(1, BrokenLine),
    ),
    (
        "point=1 type=9.1 normal=none forced=none\n",
        Faulty(1, BrokenLine),
    ),
    (
        "point=1 type=9.01 normal=none forced=none\n",
        Faulty(1, BrokenLine),
    ),
    (
        "point=1 type=9.0001 normal=none forced=none\n",
        Faulty(1, BrokenLine),
    ),
    (
        "point=1 type=9.10 normal=none forced=none\n",
        Faulty(1, BrokenLine),
    ),
    (
        "point=1 type=09.001 normal=none forced=none\n",
        Faulty(1, BrokenLine),
    ),
    (
        "point=1 type=-9.001 normal=none forced=none\n",
        Faulty(1, BrokenLine),
    ),
    (
        "point=1 type=9.-01 normal=none forced=none\n",
        Faulty(1, BrokenLine),
    ),
    (
        "point=1 type=9 normal=none forced=none\n",
        Faulty(1, BrokenLine),
    ),
    (
        "point=1 type=9,001 normal=none forced=none\n",
        Faulty(1, BrokenLine),
    ),
    (
        "point=1 type= normal=none forced=none\n",
        Faulty(1, BrokenLine),
    ),
    // Fields, from the least to the greatest of any type.
    ("point=1 type=12.001 normal=4294967295 forced=0\n", Loads),
    (
        "point=1 type=13.001 normal=-2147483648 forced=2147483647\n",
        Loads,
    ),
    (
        "point=1 type=12.001 normal=4294967296 forced=none\n",
        Faulty(1, BrokenLine),
    ),
    (
        "point=1 type=13.001 normal=-2147483649 forced=none\n",
        Faulty(1, BrokenLine),
    ),
    (
        "point=1 type=12.001 normal=99999999999999999999 forced=none\n",
        Faulty(1, BrokenLine),
    ),
    ("point=1 type=9.001 normal=-27296 forced=-1\n", Loads),
    (
        "point=1 type=9.001 normal=-0 forced=none\n",
        Faulty(1, BrokenLine),
    ),
    (
        "point=1 type=9.001 normal=-01 forced=none\n",
        Faulty(1, BrokenLine),
    ),
    (
        "point=1 type=9.001 normal=00 forced=none\n",
        Faulty(1, BrokenLine),
    ),
    (
        "point=1 type=9.001 normal=007 forced=none\n",
        Faulty(1, BrokenLine),
    ),
    (
        "point=1 type=9.001 normal=+7 forced=none\n",
        Faulty(1, BrokenLine),
    ),
    (
        "point=1 type=9.001 normal=- forced=none\n",
        Faulty(1, BrokenLine),
    ),
    (
        "point=1 type=9.001 normal=--7 forced=none\n",
        Faulty(1, BrokenLine),
    ),
    (
        "point=1 type=9.001 normal=7.5 forced=none\n",
        Faulty(1, BrokenLine),
    ),
    (
        "point=1 type=9.001 normal= forced=none\n",
        Faulty(1, BrokenLine),
    ),
    (
        "point=1 type=9.001 normal=None forced=none\n",
        Faulty(1, BrokenLine),
    ),
    (
        "point=1 type=9.001 normal=nonee forced=none\n",
        Faulty(1, BrokenLine),
    ),
    // Readings of several fields.
    ("point=1 type=201.100 normal=1,31 forced=none\n", Loads),
    (
        "point=1 type=201.100 normal=1, forced=none\n",
        Faulty(1, BrokenLine),
    ),
    (
        "point=1 type=201.100 normal=,31 forced=none\n",
        Faulty(1, BrokenLine),
    ),
    (
        "point=1 type=201.100 normal=1,,31 forced=none\n",
        Faulty(1, BrokenLine),
    ),
    (
        "point=1 type=201.100 normal=1, 31 forced=none\n",
        Faulty(1, BrokenLine),
    ),
    (
        "point=1 type=201.100 normal=1,none forced=none\n",
        Faulty(1, BrokenLine),
    ),
    (
        "point=1 type=9.001 normal=1,2,3 forced=none\n",
        Faulty(1, WrongLength),
    ),
    (
        "point=1 type=19.001 normal=1,2,3,4,5,6,7,8,9,10,11,12,13,14,15 forced=none\n",
        Faulty(1, WrongLength),
    ),
    (
        "point=1 type=19.001 normal=1,2,3,4,5,6,7,8,9,10,11,12,13,14,15,16 forced=none\n",
        Faulty(1, IllegalReading),
    ),
    (
        "point=1 type=19.001 normal=1,2,3,4,5,6,7,8,9,10,11,12,13,14,15,16,17 forced=none\n",
        Faulty(1, WrongLength),
    ),
    (
        "point=1 type=19.001 normal=1,2,3,4,5,6,7,8,9,10,11,12,13,14,15,16,017 forced=none\n",
        Faulty(1, BrokenLine),
    ),
    // What is not legal, the normal reading before the forced one, and a length before the legal.
    (
        "point=1 type=9.001 normal=-27301 forced=none\n",
        Faulty(1, IllegalReading),
    ),
    (
        "point=1 type=9.001 normal=none forced=-27301\n",
        Faulty(1, IllegalReading),
    ),
    (
        "point=1 type=1.001 normal=2 forced=0,0\n",
        Faulty(1, IllegalReading),
    ),
    (
        "point=1 type=1.001 normal=0,0 forced=2\n",
        Faulty(1, WrongLength),
    ),
    // The form comes before the point, the point before its order, and the order before the type.
    (
        "point=0 type=99.001 normal=none forced=\n",
        Faulty(1, BrokenLine),
    ),
    (
        "point=49 type=99.001 normal=2 forced=none\n",
        Faulty(1, NoSuchPoint),
    ),
    (
        "point=2 type=1.001 normal=none forced=none\npoint=1 type=99.001 normal=2 forced=none\n",
        Faulty(2, NotAbove),
    ),
    (
        "point=1 type=99.001 normal=1,2,3,4,5,6,7,8,9,10,11,12,13,14,15,16,17 forced=none\n",
        Faulty(1, UnknownType),
    ),
    // Keys, spaces and line ends.
    ("\n", Faulty(1, BrokenLine)),
    (
        "point=1 type=1.001 normal=none forced=none",
        Faulty(1, BrokenLine),
    ),
    (
        "point=1 type=1.001 normal=none forced=none\n\n",
        Faulty(2, BrokenLine),
    ),
    (
        "point=1 type=1.001 normal=none forced=none\npoint=",
        Faulty(2, BrokenLine),
    ),
    (
        "point=1 type=1.001 normal=none forced=none\r\n",
        Faulty(1, BrokenLine),
    ),
    (
        "point=1 type=1.001 normal=none forced=none \n",
        Faulty(1, BrokenLine),
    ),
    (
        " point=1 type=1.001 normal=none forced=none\n",
        Faulty(1, BrokenLine),
    ),
    (
        "point=1  type=1.001 normal=none forced=none\n",
        Faulty(1, BrokenLine),
    ),
    (
        "point=1 type=1.001 forced=none normal=none\n",
        Faulty(1, BrokenLine),
    ),
    ("point=1 type=1.001 normal=none\n", Faulty(1, BrokenLine)),
    (
        "Point=1 type=1.001 normal=none forced=none\n",
        Faulty(1, BrokenLine),
    ),
    (
        "point=1 type=1.001 normal=none forced=none forced=none\n",
        Faulty(1, BrokenLine),
    ),
    // Octets above 127.
    (
        "point=1 type=1.001 normal=none forced=non\u{e9}\n",
        Faulty(1, BrokenLine),
    ),
    (
        "\u{feff}point=1 type=1.001 normal=none forced=none\n",
        Faulty(1, BrokenLine),
    ),
    // Only the first faulty line is told.
    (
        "point=1 type=1.001 normal=2 forced=none\npoint=1\n",
        Faulty(1, IllegalReading),
    ),
];
