// Calls that are refused, and with what.
use crate::call::Call;
use crate::call::Call::{Force, List, Place, Read, Receive, Release, Remove, Send, Set};
use datapoint::refusal::Refusal;
use datapoint::refusal::Refusal::{
    AlreadyPlaced, IllegalPayload, IllegalReading, NoSuchPoint, NotOverridden, NotPlaced,
    Overridden, ShortBuffer, Silent, UnknownType, WrongLength,
};

pub static REFUSED: [(Call, Refusal); 52] = [
    // The point is not 1 to 48, whatever else is wrong.
    (Place(0, 99, 1), NoSuchPoint),
    (Place(49, 9, 1), NoSuchPoint),
    (Place(usize::MAX, 9, 1), NoSuchPoint),
    (Remove(0), NoSuchPoint),
    (Remove(49), NoSuchPoint),
    (Receive(0, &[0x0C]), NoSuchPoint),
    (Receive(49, &[0x0C, 0x1A]), NoSuchPoint),
    (Set(0, &[]), NoSuchPoint),
    (Set(49, &[2100]), NoSuchPoint),
    (Force(0, &[]), NoSuchPoint),
    (Force(49, &[2100]), NoSuchPoint),
    (Release(0), NoSuchPoint),
    (Release(49), NoSuchPoint),
    (Read(0, 0), NoSuchPoint),
    (Read(49, 16), NoSuchPoint),
    (Send(0, 0), NoSuchPoint),
    (Send(49, 14), NoSuchPoint),
    // A placed point is placed again, also as what no book has.
    (Place(1, 9, 1), AlreadyPlaced),
    (Place(3, 99, 1), AlreadyPlaced),
    // The point is not placed.
    (Remove(48), NotPlaced),
    (Receive(48, &[]), NotPlaced),
    (Set(48, &[]), NotPlaced),
    (Force(48, &[]), NotPlaced),
    (Release(48), NotPlaced),
    (Read(48, 0), NotPlaced),
    (Send(48, 0), NotPlaced),
    // The book has no such type.
    (Place(48, 99, 1), UnknownType),
    (Place(48, 9, 3), UnknownType),
    // A normal write to an overridden point, also of what is not legal.
    (Receive(2, &[0x00]), Overridden),
    (Receive(2, &[0x02, 0x00]), Overridden),
    (Set(2, &[0]), Overridden),
    (Set(2, &[2]), Overridden),
    // No forced reading to release.
    (Release(1), NotOverridden),
    (Release(3), NotOverridden),
    // Nothing to send, whatever the buffer.
    (Send(3, 14), Silent),
    (Send(3, 0), Silent),
    // A wrong length, also of what else would not be legal.
    (Receive(1, &[]), WrongLength { due: 2 }),
    (Receive(1, &[0x7F]), WrongLength { due: 2 }),
    (Receive(1, &[0x7F, 0xFF, 0x00]), WrongLength { due: 2 }),
    (Set(1, &[]), WrongLength { due: 1 }),
    (Set(1, &[-27_301, 0]), WrongLength { due: 1 }),
    (Set(3, &[256]), WrongLength { due: 14 }),
    (Force(1, &[2100, 2100]), WrongLength { due: 1 }),
    (Force(2, &[]), WrongLength { due: 1 }),
    // What is not legal.
    (Receive(1, &[0x7F, 0xFF]), IllegalPayload),
    (Set(1, &[-27_301]), IllegalReading),
    (Force(1, &[i64::MAX]), IllegalReading),
    (Force(2, &[2]), IllegalReading),
    // A buffer that is one place too short.
    (Read(2, 0), ShortBuffer { needed: 1 }),
    (Send(1, 1), ShortBuffer { needed: 2 }),
    (List(123), ShortBuffer { needed: 124 }),
    (List(0), ShortBuffer { needed: 124 }),
];
