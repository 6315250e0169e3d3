// Types of one octet, by the clauses and examples of the KNX Standard, Datapoint Types, 02.02.01.
use crate::vector::Page;
use crate::vector::Vector::{Illegal, Loose, Proper, Unwritable};

pub static OCTETS: &[Page] = &[
    // Clause 3.1: one bit.
    Page {
        main: 1,
        first: 1,
        last: 19,
        vectors: &[
            Proper(&[0x00], &[0]),
            Proper(&[0x01], &[1]),
            Illegal(&[0x02]),
        ],
    },
    // Clause 3.2: control and value. Without control the value reads 0.
    Page {
        main: 2,
        first: 1,
        last: 12,
        vectors: &[
            Proper(&[0x00], &[0, 0]),
            Loose(&[0x01], &[0, 0], &[0x00]),
            Proper(&[0x02], &[1, 0]),
            Proper(&[0x03], &[1, 1]),
            Illegal(&[0x04]),
        ],
    },
    // Clause 3.3: direction and step code, 000b a break, which has no direction.
    Page {
        main: 3,
        first: 7,
        last: 8,
        vectors: &[
            Proper(&[0x00], &[0, 0]),
            Loose(&[0x08], &[0, 0], &[0x00]),
            Proper(&[0x01], &[0, 1]),
            Proper(&[0x07], &[0, 7]),
            Proper(&[0x09], &[1, 1]),
            Proper(&[0x0F], &[1, 7]),
            Illegal(&[0x10]),
        ],
    },
    // Clause 3.4: a character whose highest bit is 0.
    Page {
        main: 4,
        first: 1,
        last: 1,
        vectors: &[
            // NUL
            Proper(&[0x00], &[0]),
            // A
            Proper(&[0x41], &[65]),
            // ~
            Proper(&[0x7E], &[126]),
            Illegal(&[0x80]),
        ],
    },
    // Clause 3.4: a character of ISO 8859-1.
    Page {
        main: 4,
        first: 2,
        last: 2,
        vectors: &[
            // NUL
            Proper(&[0x00], &[0]),
            // A
            Proper(&[0x41], &[65]),
            // the copyright sign
            Proper(&[0xA9], &[169]),
            // y with two dots
            Proper(&[0xFF], &[255]),
        ],
    },
    // Clause 3.5.1: 50 % and 100 % in note 4; 75 % in the second example of clause 3.44.1.
    Page {
        main: 5,
        first: 1,
        last: 1,
        vectors: &[
            Proper(&[0x00], &[0]),
            Proper(&[0x80], &[128]),
            Proper(&[0xC0], &[192]),
            Proper(&[0xFF], &[255]),
        ],
    },
    // Clause 3.5.1: 0 and 360 degrees.
    Page {
        main: 5,
        first: 3,
        last: 3,
        vectors: &[Proper(&[0x00], &[0]), Proper(&[0xFF], &[255])],
    },
    // Clause 3.5.1: 50 %, 100 % and 255 % in note 4; 1 % in clause 3.31.
    Page {
        main: 5,
        first: 4,
        last: 4,
        vectors: &[
            Proper(&[0x01], &[1]),
            Proper(&[0x32], &[50]),
            Proper(&[0x64], &[100]),
            Proper(&[0xFF], &[255]),
        ],
    },
    // Clause 3.5.2.1: the ends of the range.
    Page {
        main: 5,
        first: 10,
        last: 10,
        vectors: &[
            Proper(&[0x00], &[0]),
            Proper(&[0xFF], &[255]),
            Unwritable(&[-1]),
            Unwritable(&[256]),
        ],
    },
    // Clause 3.6.1: the ends of the range.
    Page {
        main: 6,
        first: 1,
        last: 1,
        vectors: &[
            Proper(&[0x80], &[-128]),
            Proper(&[0xFF], &[-1]),
            Proper(&[0x7F], &[127]),
        ],
    },
    // Clause 3.6.1: the ends of the range.
    Page {
        main: 6,
        first: 10,
        last: 10,
        vectors: &[
            Proper(&[0x80], &[-128]),
            Proper(&[0xFF], &[-1]),
            Proper(&[0x7F], &[127]),
            Unwritable(&[-129]),
            Unwritable(&[128]),
        ],
    },
    // Clause 3.18: the ends of the range.
    Page {
        main: 17,
        first: 1,
        last: 1,
        vectors: &[
            Proper(&[0x00], &[0]),
            Proper(&[0x3F], &[63]),
            Illegal(&[0x40]),
            Illegal(&[0x80]),
        ],
    },
    // Clause 3.19: bit 6 is reserved.
    Page {
        main: 18,
        first: 1,
        last: 1,
        vectors: &[
            Proper(&[0x00], &[0, 0]),
            Proper(&[0x3F], &[0, 63]),
            Proper(&[0x80], &[1, 0]),
            Proper(&[0xBF], &[1, 63]),
            Illegal(&[0x40]),
            Illegal(&[0xC0]),
        ],
    },
    // Clause 3.23.
    Page {
        main: 23,
        first: 1,
        last: 1,
        vectors: &[
            Proper(&[0x00], &[0]),
            Proper(&[0x01], &[1]),
            Proper(&[0x02], &[2]),
            Proper(&[0x03], &[3]),
            Illegal(&[0x04]),
        ],
    },
    // Clause 3.23: 11b is reserved.
    Page {
        main: 23,
        first: 2,
        last: 2,
        vectors: &[
            Proper(&[0x00], &[0]),
            Proper(&[0x01], &[1]),
            Proper(&[0x02], &[2]),
            Illegal(&[0x03]),
        ],
    },
    // Clause 3.23.
    Page {
        main: 23,
        first: 3,
        last: 3,
        vectors: &[
            Proper(&[0x00], &[0]),
            Proper(&[0x01], &[1]),
            Proper(&[0x02], &[2]),
            Proper(&[0x03], &[3]),
            Illegal(&[0x04]),
        ],
    },
    // Clause 3.25: bit 7 is reserved.
    Page {
        main: 26,
        first: 1,
        last: 1,
        vectors: &[
            Proper(&[0x00], &[0, 0]),
            Proper(&[0x3F], &[0, 63]),
            Proper(&[0x40], &[1, 0]),
            Proper(&[0x7F], &[1, 63]),
            Illegal(&[0x80]),
            Illegal(&[0xC0]),
        ],
    },
];
