// What stands in a line between the values, written when listing and compared when loading.
pub const POINT: &[u8] = b"point=";

pub const TYPE: &[u8] = b" type=";

pub const NORMAL: &[u8] = b" normal=";

pub const FORCED: &[u8] = b" forced=";

pub const END: &[u8] = b"\n";

pub const NONE: &[u8] = b"none";

pub const COMMA: &[u8] = b",";

pub const DOT: &[u8] = b".";

pub const MINUS: &[u8] = b"-";

pub const ZERO: &[u8] = b"0";

// What is said of a faulty line.
pub const LINE: &[u8] = b"line=";

pub const CAUSE: &[u8] = b" cause=";
