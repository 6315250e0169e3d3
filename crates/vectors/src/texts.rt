// Texts, by the clauses and examples of the KNX Standard, Datapoint Types, 02.02.01.
use crate::vector::Page;
use crate::vector::Vector::{Illegal, Loose, Proper, Unwritable};

pub static TEXTS: &[Page] = &[
    // Clause 3.17: example 8. What follows the first 00 reads 0.
    Page {
        main: 16,
        first: 0,
        last: 0,
        vectors: &[
            Proper(
                &[
                    0x4B, 0x4E, 0x58, 0x20, 0x69, 0x73, 0x20, 0x4F, 0x4B, 0x00, 0x00, 0x00, 0x00,
                    0x00,
                ],
                &[75, 78, 88, 32, 105, 115, 32, 79, 75, 0, 0, 0, 0, 0],
            ),
            Loose(
                &[
                    0x41, 0x42, 0x00, 0x43, 0x00, 0x00, 0x00, 0x00, 0x00, 0x00, 0x00, 0x00, 0x00,
                    0x00,
                ],
                &[65, 66, 0, 0, 0, 0, 0, 0, 0, 0, 0, 0, 0, 0],
                &[
                    0x41, 0x42, 0x00, 0x00, 0x00, 0x00, 0x00, 0x00, 0x00, 0x00, 0x00, 0x00, 0x00,
                    0x00,
                ],
            ),
            Illegal(&[
                0x80, 0x00, 0x00, 0x00, 0x00, 0x00, 0x00, 0x00, 0x00, 0x00, 0x00, 0x00, 0x00, 0x00,
            ]),
            Illegal(&[
                0x41, 0x00, 0x80, 0x00, 0x00, 0x00, 0x00, 0x00, 0x00, 0x00, 0x00, 0x00, 0x00, 0x00,
            ]),
            Unwritable(&[65, 0, 66, 0, 0, 0, 0, 0, 0, 0, 0, 0, 0, 0]),
        ],
    },
    // Clause 3.17: example 8.
    Page {
        main: 16,
        first: 1,
        last: 1,
        vectors: &[
            Proper(
                &[
                    0x4B, 0x4E, 0x58, 0x20, 0x69, 0x73, 0x20, 0x4F, 0x4B, 0x00, 0x00, 0x00, 0x00,
                    0x00,
                ],
                &[75, 78, 88, 32, 105, 115, 32, 79, 75, 0, 0, 0, 0, 0],
            ),
            Proper(
                &[
                    0xFF, 0x00, 0x00, 0x00, 0x00, 0x00, 0x00, 0x00, 0x00, 0x00, 0x00, 0x00, 0x00,
                    0x00,
                ],
                &[255, 0, 0, 0, 0, 0, 0, 0, 0, 0, 0, 0, 0, 0],
            ),
        ],
    },
];
