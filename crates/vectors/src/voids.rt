// Dates with times that have voided fields, by the clauses and examples of the KNX Standard, Datapoint Types, 02.02.01.
use crate::vector::Page;
use crate::vector::Vector::{Illegal, Loose};

pub static VOIDS: &[Page] = &[
    // Clause 3.20: a voided field has anything in its own bits, and reads 0.
    Page {
        main: 19,
        first: 1,
        last: 1,
        vectors: &[
            Loose(
                &[0x7C, 0x0C, 0x1F, 0x1F, 0x00, 0x00, 0x02, 0x00],
                &[2024, 12, 31, 0, 0, 0, 0, 0, 0, 0, 0, 0, 0, 1, 0, 0],
                &[0x7C, 0x0C, 0x1F, 0x00, 0x00, 0x00, 0x02, 0x00],
            ),
            // note 14: the weekday is void
            Loose(
                &[0x7C, 0x0C, 0x1F, 0xE0, 0x00, 0x00, 0x04, 0x00],
                &[2024, 12, 31, 0, 0, 0, 0, 0, 0, 0, 0, 0, 1, 0, 0, 0],
                &[0x7C, 0x0C, 0x1F, 0x00, 0x00, 0x00, 0x04, 0x00],
            ),
            Loose(
                &[0x7C, 0x0C, 0x1F, 0x00, 0x00, 0x00, 0x60, 0x00],
                &[2024, 12, 31, 0, 0, 0, 0, 0, 0, 1, 0, 0, 0, 0, 0, 0],
                &[0x7C, 0x0C, 0x1F, 0x00, 0x00, 0x00, 0x20, 0x00],
            ),
            Loose(
                &[0xFF, 0x0F, 0x1F, 0x00, 0x00, 0x00, 0x18, 0x00],
                &[0, 0, 0, 0, 0, 0, 0, 0, 0, 0, 1, 1, 0, 0, 0, 0],
                &[0x00, 0x00, 0x00, 0x00, 0x00, 0x00, 0x18, 0x00],
            ),
            Illegal(&[0x00, 0x10, 0x00, 0x00, 0x00, 0x00, 0x18, 0x00]),
        ],
    },
];
