// The flags of a date and time.
ghost use Rattle.std.specs.Prelude.{◌≡◌, ◌<◌};
ghost use Rattle.moment.specs.Bits.{bit};
ghost use Rattle.moment.specs.Flags.{flag_of, voids_in, voids_of, workday_of, flags_in, flags_of};

// Which fields are void: NY the year, ND the month and day, NDoW the weekday, NT the time.
#[derive(Clone, Copy, PartialEq, Eq, Debug)]
pub struct Voids {
    pub year: bool,
    pub date: bool,
    pub weekday: bool,
    pub time: bool,
}

// What the other flags tell.
#[derive(Clone, Copy, PartialEq, Eq, Debug)]
pub struct Status {
    // F
    pub fault: bool,
    // WD, unless NWD voids it.
    pub workday: Option<bool>,
    // SUTI
    pub summer: bool,
    // CLQ
    pub synchronized: bool,
}

#[derive(Clone, Copy, PartialEq, Eq, Debug)]
pub struct Flags {
    pub voids: Voids,
    pub status: Status,
}

// One bit of an octet.
fn bit(octet: u8, place: u32) -> bool
    requires { place < 8 }
    ensures { result ≡ bit place octet }
{
    (octet >> place) % 2 == 1
}

// The flag that a field is.
fn flag(field: i64) -> Option<bool>
    ensures { result ≡ flag_of field }
{
    match field {
        0 => Some(false),
        1 => Some(true),
        _ => None,
    }
}

impl Voids {
    // The voids in the octet of flags.
    fn in_octet(octet: u8) -> Voids
        ensures { result ≡ voids_in octet }
    {
        Voids {
            year: bit(octet, 4),
            date: bit(octet, 3),
            weekday: bit(octet, 2),
            time: bit(octet, 1),
        }
    }

    // The voids of their fields.
    fn of_fields(fields: &[i64]) -> Option<Voids>
        ensures { result ≡ voids_of fields.now }
    {
        let [ny, nd, ndow, nt] = fields else {
            return None;
        };
        Some(Voids {
            year: flag(*ny)?,
            date: flag(*nd)?,
            weekday: flag(*ndow)?,
            time: flag(*nt)?,
        })
    }
}

// The workday of its fields, by patterns: with two numbers and `?` the check of the flags' reading hit its limit.
fn workday_of(fields: &[i64]) -> Option<Option<bool>>
    ensures { result ≡ workday_of fields.now }
{
    match fields {
        [0, 1] => Some(None),
        [0, 0] => Some(Some(false)),
        [1, 0] => Some(Some(true)),
        _ => None,
    }
}

impl Flags {
    // The flags in the last two octets of a payload.
    pub fn in_octets(octet: u8, quality: u8) -> Option<Flags>
        ensures { result ≡ flags_in octet quality }
    {
        if quality % 128 != 0 {
            return None;
        }
        Some(Flags {
            voids: Voids::in_octet(octet),
            status: Status {
                fault: bit(octet, 7),
                workday: (!bit(octet, 5)).then_some(bit(octet, 6)),
                summer: bit(octet, 0),
                synchronized: bit(quality, 7),
            },
        })
    }

    // The flags of the last nine fields of a reading.
    pub fn of_fields(fields: &[i64]) -> Option<Flags>
        ensures { result ≡ flags_of fields.now }
    {
        let [f, _, _, _, _, _, _, suti, clq] = fields else {
            return None;
        };
        let fault = flag(*f)?;
        let workday = workday_of(&fields[1..3])?;
        let voids = Voids::of_fields(&fields[3..7])?;
        let status = Status {
            fault,
            workday,
            summer: flag(*suti)?,
            synchronized: flag(*clq)?,
        };
        Some(Flags { voids, status })
    }
}
