// A type of each shape, for calls of other lengths.
use crate::vector::Shape;

pub static SHAPES: &[Shape] = &[
    Shape {
        main: 1,
        sub: 1,
        payload: &[0x01],
        reading: &[1],
    },
    Shape {
        main: 2,
        sub: 1,
        payload: &[0x03],
        reading: &[1, 1],
    },
    Shape {
        main: 3,
        sub: 7,
        payload: &[0x09],
        reading: &[1, 1],
    },
    Shape {
        main: 6,
        sub: 10,
        payload: &[0xFF],
        reading: &[-1],
    },
    Shape {
        main: 7,
        sub: 1,
        payload: &[0x01, 0x02],
        reading: &[258],
    },
    Shape {
        main: 8,
        sub: 1,
        payload: &[0xFF, 0xFF],
        reading: &[-1],
    },
    Shape {
        main: 9,
        sub: 1,
        payload: &[0x0C, 0x1A],
        reading: &[2100],
    },
    Shape {
        main: 10,
        sub: 1,
        payload: &[0x20, 0x00, 0x00],
        reading: &[1, 0, 0, 0],
    },
    Shape {
        main: 11,
        sub: 1,
        payload: &[0x01, 0x01, 0x00],
        reading: &[1, 1, 2000],
    },
    Shape {
        main: 12,
        sub: 1,
        payload: &[0x01, 0x02, 0x03, 0x04],
        reading: &[16909060],
    },
    Shape {
        main: 13,
        sub: 1,
        payload: &[0xFF, 0xFF, 0xFF, 0xFF],
        reading: &[-1],
    },
    Shape {
        main: 16,
        sub: 0,
        payload: &[
            0x4B, 0x4E, 0x58, 0x20, 0x69, 0x73, 0x20, 0x4F, 0x4B, 0x00, 0x00, 0x00, 0x00, 0x00,
        ],
        reading: &[75, 78, 88, 32, 105, 115, 32, 79, 75, 0, 0, 0, 0, 0],
    },
    Shape {
        main: 18,
        sub: 1,
        payload: &[0xBF],
        reading: &[1, 63],
    },
    Shape {
        main: 19,
        sub: 1,
        payload: &[0x7C, 0x0C, 0x1F, 0x4C, 0x1E, 0x0F, 0xC1, 0x80],
        reading: &[2024, 12, 31, 2, 12, 30, 15, 1, 1, 0, 0, 0, 0, 0, 1, 1],
    },
    Shape {
        main: 201,
        sub: 100,
        payload: &[0x01, 0x1F],
        reading: &[1, 31],
    },
    Shape {
        main: 232,
        sub: 600,
        payload: &[0xFF, 0x80, 0x01],
        reading: &[255, 128, 1],
    },
];
