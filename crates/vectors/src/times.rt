// Times and dates, by the clauses and examples of the KNX Standard, Datapoint Types, 02.02.01.
use crate::vector::Page;
use crate::vector::Vector::{Illegal, Proper, Unwritable};

pub static TIMES: &[Page] = &[
    // Clause 3.11: the ends of the ranges.
    Page {
        main: 10,
        first: 1,
        last: 1,
        vectors: &[
            Proper(&[0x00, 0x00, 0x00], &[0, 0, 0, 0]),
            // Monday
            Proper(&[0x20, 0x00, 0x00], &[1, 0, 0, 0]),
            // Sunday
            Proper(&[0xF7, 0x3B, 0x3B], &[7, 23, 59, 59]),
            Illegal(&[0x18, 0x00, 0x00]),
            Illegal(&[0x00, 0x3C, 0x00]),
            Illegal(&[0x00, 0x00, 0x3C]),
            Illegal(&[0x00, 0x40, 0x00]),
        ],
    },
    // Clause 3.12: figure 2 of clause 1.4, example 5, and the ends of the ranges.
    Page {
        main: 11,
        first: 1,
        last: 1,
        vectors: &[
            // the date under figure 2
            Proper(&[0x0C, 0x0C, 0x06], &[12, 12, 2006]),
            // the date in figure 2
            Proper(&[0x12, 0x0C, 0x06], &[18, 12, 2006]),
            // the years of example 5
            Proper(&[0x01, 0x01, 0x63], &[1, 1, 1999]),
            Proper(&[0x01, 0x01, 0x00], &[1, 1, 2000]),
            Proper(&[0x01, 0x01, 0x04], &[1, 1, 2004]),
            Proper(&[0x01, 0x01, 0x5A], &[1, 1, 1990]),
            Proper(&[0x1F, 0x0C, 0x59], &[31, 12, 2089]),
            Proper(&[0x1E, 0x02, 0x59], &[30, 2, 2089]),
            Illegal(&[0x00, 0x01, 0x00]),
            Illegal(&[0x20, 0x01, 0x00]),
            Illegal(&[0x01, 0x00, 0x00]),
            Illegal(&[0x01, 0x0D, 0x00]),
            Illegal(&[0x01, 0x01, 0x64]),
            Unwritable(&[1, 1, 1989]),
            Unwritable(&[1, 1, 2090]),
        ],
    },
];
