// Whole numbers, floats and colours, by the clauses and examples of the KNX Standard, Datapoint Types, 02.02.01.
use crate::vector::Page;
use crate::vector::Vector::{Illegal, Loose, Proper, Unwritable};

pub static NUMBERS: &[Page] = &[
    // Clause 3.8.1: the ends of the range, high octet first.
    Page {
        main: 7,
        first: 1,
        last: 1,
        vectors: &[
            Proper(&[0x00, 0x00], &[0]),
            Proper(&[0x01, 0x02], &[258]),
            Proper(&[0xFF, 0xFF], &[65535]),
            Unwritable(&[65536]),
        ],
    },
    // Clause 3.9.1: the ends of the range. 7F FF is a count as any other.
    Page {
        main: 8,
        first: 1,
        last: 1,
        vectors: &[
            Proper(&[0x80, 0x00], &[-32768]),
            Proper(&[0xFF, 0xFF], &[-1]),
            Proper(&[0x7F, 0xFF], &[32767]),
            Unwritable(&[32768]),
        ],
    },
    // Clause 3.10: the ends of the range. -27300 itself has no payload.
    Page {
        main: 9,
        first: 1,
        last: 1,
        vectors: &[
            Proper(&[0x0C, 0x1A], &[2100]),
            Loose(&[0x09, 0xF4], &[1000], &[0x03, 0xE8]),
            // exponent 3, as of a sender that has no other
            Loose(&[0x18, 0x7D], &[1000], &[0x03, 0xE8]),
            Proper(&[0x03, 0xE8], &[1000]),
            Proper(&[0xA1, 0x56], &[-27296]),
            Illegal(&[0xA1, 0x55]),
            Proper(&[0x7F, 0xFE], &[67043328]),
            Illegal(&[0x7F, 0xFF]),
            Unwritable(&[-27300]),
        ],
    },
    // Clause 3.10: the ends of the range. 7F FF is invalid data.
    Page {
        main: 9,
        first: 2,
        last: 2,
        vectors: &[
            Proper(&[0x8A, 0x24], &[-3000]),
            Loose(&[0x08, 0x00], &[0], &[0x00, 0x00]),
            Proper(&[0x00, 0x00], &[0]),
            Proper(&[0xF8, 0x00], &[-67108864]),
            Proper(&[0x7F, 0xFE], &[67043328]),
            Illegal(&[0x7F, 0xFF]),
            Unwritable(&[67076096]),
        ],
    },
    // Clause 3.10: the ends of the range.
    Page {
        main: 9,
        first: 4,
        last: 7,
        vectors: &[
            Proper(&[0x00, 0x00], &[0]),
            Proper(&[0x7F, 0xFE], &[67043328]),
            Illegal(&[0x7F, 0xFF]),
            Illegal(&[0x87, 0xFF]),
            Unwritable(&[-1]),
        ],
    },
    // Clause 3.13.1: the ends of the range, high octet first.
    Page {
        main: 12,
        first: 1,
        last: 1,
        vectors: &[
            Proper(&[0x00, 0x00, 0x00, 0x00], &[0]),
            Proper(&[0x01, 0x02, 0x03, 0x04], &[16909060]),
            Proper(&[0xFF, 0xFF, 0xFF, 0xFF], &[4294967295]),
            Unwritable(&[4294967296]),
        ],
    },
    // Clause 3.14.1: the ends of the range.
    Page {
        main: 13,
        first: 1,
        last: 1,
        vectors: &[
            Proper(&[0x80, 0x00, 0x00, 0x00], &[-2147483648]),
            Proper(&[0xFF, 0xFF, 0xFF, 0xFF], &[-1]),
            Proper(&[0x7F, 0xFF, 0xFF, 0xFF], &[2147483647]),
            Unwritable(&[2147483648]),
        ],
    },
    // Clause 6.6.1: red, green and blue in this order.
    Page {
        main: 232,
        first: 600,
        last: 600,
        vectors: &[
            Proper(&[0x00, 0x00, 0x00], &[0, 0, 0]),
            Proper(&[0xFF, 0x80, 0x01], &[255, 128, 1]),
            Proper(&[0xFF, 0xFF, 0xFF], &[255, 255, 255]),
            Unwritable(&[256, 0, 0]),
        ],
    },
];
