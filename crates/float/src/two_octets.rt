// The float of two octets. A reading counts hundredths, and goes out with the smallest exponent that holds it.
ghost use Rattle.std.specs.Prelude.{◌≡◌, ◌^◌, ◌<◌, true, pos, negsuc, ◌≤ℤ◌, IfSome};
ghost use Rattle.std.specs.Option.{option_map};
ghost use Rattle.float.specs.Float.{float, mantissa_of, value_of, legal, mantissa_at, held, least_exponent, packed, smallest, SmallestExponent};
ghost use Rattle.float.specs.Laws;

use datapoint::datapoint_type::{Counts, DatapointType};
use datapoint::front::deliver;
use datapoint::refusal::Refusal;

// A float that reads no less than the lowest.
#[derive(Clone, Copy, PartialEq, Eq, Debug)]
pub struct Float {
    pub lowest: i32,
}

impl Float {
    // 9.001, a temperature: no less than -273 degrees.
    pub const TEMPERATURE: Float = Float { lowest: -27_300 };

    // 9.002, a temperature difference: all that the format holds.
    pub const DIFFERENCE: Float = Float {
        lowest: -67_108_864,
    };

    // A float that reads no less than `lowest`.
    pub fn no_less_than(lowest: i32) -> Float
        ensures is { result.lowest ≡ lowest }
        ensures smallest { SmallestExponent }
    {
        Float { lowest }
    }

    // Whether the value is no less than the lowest, and its payload is not 7F FF, which is invalid data.
    fn is_legal(self, value: i64, high: u8, low: u8) -> bool
        ensures { result ≡ legal self.lowest value high low }
    {
        i64::from(self.lowest) <= value && (high, low) != (0x7f, 0xff)
    }
}

// The exponent of a float: four bits.
#[derive(Clone, Copy)]
struct Exponent {
    power: u8,
    ghost four_bits: { power < 16 },
}

impl Exponent {
    fn new(power: u8) -> Exponent
        requires { power < 16 }
        ensures { result.power ≡ power }
    {
        Exponent { power }
    }

    // What one step of the mantissa counts for.
    fn step(self) -> i64
        ensures { result ≡ pos (2 ^ self.power) }
    {
        1 << self.power
    }

    // The mantissa of a reading.
    fn mantissa(self, reading: i64) -> i64
        ensures { result ≡ mantissa_at reading self.power }
    {
        reading / self.step()
    }

    // Whether the reading is M × 2^exponent with M from -2048 to 2047.
    fn holds(self, reading: i64) -> bool
        ensures { result ≡ held reading self.power }
    {
        let mantissa = self.mantissa(reading);
        -2048 <= mantissa && mantissa <= 2047 && mantissa * self.step() == reading
    }

    // The smallest that holds a reading.
    fn smallest(reading: i64) -> Option<Exponent>
        ensures least { option_map (λ e. e.power) result ≡ least_exponent reading }
        ensures holds { IfSome result (λ e. held reading e.power ≡ true) }
    {
        (0..16)
            .map(Exponent::new)
            .find(|exponent| exponent.holds(reading))
    }
}

// The mantissa of a payload.
fn mantissa(high: u8, low: u8) -> i64
    ensures { result ≡ mantissa_of high low }
{
    let fraction = u16::from_be_bytes([high % 8, low]);
    i64::from(fraction) - 2048 * i64::from(high / 128)
}

// What a payload reads, legal or not.
fn value(high: u8, low: u8) -> i64
    ensures { result ≡ value_of high low }
{
    mantissa(high, low) * Exponent::new(high / 8 % 16).step()
}

// The two octets of a mantissa and an exponent. They stay two numbers: in a [u8; 2] each clause would index them.
fn packed(mantissa: i64, exponent: Exponent) -> (u8, u8)
    requires low { negsuc 2047 ≤ℤ mantissa }
    requires high { mantissa ≤ℤ pos 2047 }
    ensures { result ≡ packed mantissa exponent.power }
{
    let sign = u8::from(mantissa < 0);
    // From 0 to 2047: `try_from` would have an error that can't come.
    let fraction = (mantissa + 2048 * i64::from(sign)) as u16;
    let [high, low] = fraction.to_be_bytes();
    (128 * sign + 8 * exponent.power + high, low)
}

// The two octets of a reading at the smallest exponent that holds it.
fn smallest(reading: i64) -> Option<(u8, u8)>
    ensures { result ≡ smallest reading }
{
    let exponent = Exponent::smallest(reading)?;
    Some(packed(exponent.mantissa(reading), exponent))
}

impl DatapointType for Float {
    ghost meaning = { λ s. float s.lowest };

    ghost lawful = { λ s. Laws.lawful s.lowest };

    fn counts(&self) -> Counts {
        Counts {
            octets: 2,
            fields: 1,
        }
    }

    fn read(&self, payload: &[u8], out: &mut [i64]) -> Result<usize, Refusal> {
        let [high, low] = payload else {
            return Err(Refusal::WrongLength { due: 2 });
        };
        let value = value(*high, *low);
        if !self.is_legal(value, *high, *low) {
            return Err(Refusal::IllegalPayload);
        }
        deliver(&[value], out)
    }

    fn write(&self, reading: &[i64], out: &mut [u8]) -> Result<usize, Refusal> {
        let [value] = reading else {
            return Err(Refusal::WrongLength { due: 1 });
        };
        let (high, low) = smallest(*value)
            .filter(|(high, low)| self.is_legal(*value, *high, *low))
            .ok_or(Refusal::IllegalReading)?;
        deliver(&[high, low], out)
    }
}
