// Types of the heating book, by the clauses and examples of the KNX Standard, Datapoint Types, 02.02.01.
use crate::vector::Page;
use crate::vector::Vector::{Illegal, Proper};

pub static HEATING: &[Page] = &[
    // Clause 4.3: the fuel type.
    Page {
        main: 20,
        first: 100,
        last: 100,
        vectors: &[
            Proper(&[0x00], &[0]),
            Proper(&[0x01], &[1]),
            Proper(&[0x02], &[2]),
            Proper(&[0x03], &[3]),
            Illegal(&[0x04]),
            Illegal(&[0xFF]),
        ],
    },
    // Clause 4.3: the modes of heating and of hot water.
    Page {
        main: 20,
        first: 102,
        last: 103,
        vectors: &[
            Proper(&[0x00], &[0]),
            Proper(&[0x01], &[1]),
            Proper(&[0x02], &[2]),
            Proper(&[0x03], &[3]),
            Proper(&[0x04], &[4]),
            Illegal(&[0x05]),
            Illegal(&[0xFF]),
        ],
    },
    // Clause 4.3: the load priority.
    Page {
        main: 20,
        first: 104,
        last: 104,
        vectors: &[
            Proper(&[0x00], &[0]),
            Proper(&[0x01], &[1]),
            Proper(&[0x02], &[2]),
            Illegal(&[0x03]),
            Illegal(&[0xFF]),
        ],
    },
    // Clause 4.8.1: cooling and heating.
    Page {
        main: 200,
        first: 100,
        last: 100,
        vectors: &[
            Proper(&[0x00, 0x00], &[0, 0]),
            Proper(&[0x01, 0x00], &[1, 0]),
            Proper(&[0x01, 0x1F], &[1, 31]),
            Illegal(&[0x02, 0x00]),
            Illegal(&[0x00, 0x20]),
        ],
    },
    // Clause 4.9.1, and the status bits of clause 4.1.2, of which 5 to 7 are reserved.
    Page {
        main: 201,
        first: 100,
        last: 100,
        vectors: &[
            Proper(&[0x00, 0x00], &[0, 0]),
            Proper(&[0x01, 0x00], &[1, 0]),
            Proper(&[0x02, 0x00], &[2, 0]),
            Proper(&[0x03, 0x00], &[3, 0]),
            Proper(&[0x04, 0x00], &[4, 0]),
            Illegal(&[0x05, 0x00]),
            Proper(&[0x01, 0x01], &[1, 1]),
            Proper(&[0x01, 0x02], &[1, 2]),
            Proper(&[0x01, 0x04], &[1, 4]),
            Proper(&[0x01, 0x08], &[1, 8]),
            Proper(&[0x01, 0x10], &[1, 16]),
            Proper(&[0x01, 0x1F], &[1, 31]),
            Illegal(&[0x01, 0x20]),
            Illegal(&[0x01, 0x40]),
            Illegal(&[0x01, 0x80]),
        ],
    },
    // Clause 4.9.2.
    Page {
        main: 201,
        first: 102,
        last: 102,
        vectors: &[
            Proper(&[0x00, 0x00], &[0, 0]),
            Proper(&[0x01, 0x00], &[1, 0]),
            Proper(&[0x02, 0x00], &[2, 0]),
            Proper(&[0x03, 0x00], &[3, 0]),
            Proper(&[0x04, 0x00], &[4, 0]),
            Proper(&[0x01, 0x1F], &[1, 31]),
            Illegal(&[0x05, 0x00]),
            Illegal(&[0x01, 0x20]),
        ],
    },
];
