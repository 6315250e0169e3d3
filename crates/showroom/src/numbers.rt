// The type numbers that the visit meets.
use book::number::TypeNumber;

pub const SWITCH: TypeNumber = TypeNumber { main: 1, sub: 1 };

pub const DIMMING: TypeNumber = TypeNumber { main: 3, sub: 7 };

pub const TEMPERATURE: TypeNumber = TypeNumber { main: 9, sub: 1 };

pub const TIME_OF_DAY: TypeNumber = TypeNumber { main: 10, sub: 1 };

pub const NAME: TypeNumber = TypeNumber { main: 16, sub: 0 };

pub const MODE_WITH_STATUS: TypeNumber = TypeNumber {
    main: 201,
    sub: 100,
};

// No book has it.
pub const NOWHERE: TypeNumber = TypeNumber { main: 99, sub: 1 };
