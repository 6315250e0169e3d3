// Text of fourteen characters. What stands after the first 00 reads 0.
ghost use Rattle.std.specs.Prelude.{◌≡◌, true, ◌<◌, ◌≤◌, Any, map, length, pos, MatchOption};
ghost use Rattle.text.specs.Text.{within, legal, characters, cleared, ended, text, UpTo};
ghost use Rattle.text.specs.Laws;

use datapoint::datapoint_type::{Counts, DatapointType};
use datapoint::front::deliver;
use datapoint::refusal::Refusal;

const OCTETS: usize = 14;

const FIELDS: usize = 14;

// No character is above the highest.
#[derive(Clone, Copy, PartialEq, Eq, Debug)]
pub struct Text {
    pub highest: u8,
    ghost octet: { highest < 256 },
}

impl Text {
    // 16.000
    pub const ASCII: Text = Text { highest: 127 };

    // 16.001, ISO 8859-1
    pub const LATIN_1: Text = Text { highest: 255 };

    // Whether no octet is above the highest, also after a 00.
    fn is_legal(self, payload: &[u8; OCTETS]) -> bool
        ensures { result ≡ legal self.highest payload.now }
    {
        within(self.highest, payload)
    }

    // The proper payload of a reading, if the reading is legal.
    #[tactic(auto, using(crate::proofs::Fields::payload_of_octets, crate::proofs::Fields::payload_of_other))]
    fn proper(self, reading: &[i64; FIELDS]) -> Option<[u8; OCTETS]>
        ensures { result ≡ (text self.highest).payload reading.now }
    {
        let payload = self.as_octets(reading)?;
        ended(&payload).then_some(payload)
    }

    // The fields as octets, if each is one up to the highest.
    fn as_octets(self, reading: &[i64; FIELDS]) -> Option<[u8; OCTETS]>
        ensures { MatchOption result (Any (λ x. ¬ UpTo self.highest x) reading.now) (λ octets. (reading.now ≡ map pos octets) × (within self.highest octets ≡ true)) }
    {
        // A loop, since an array's `try_map` takes three times as long.
        let mut octets = [0; OCTETS];
        for (i, field) in reading.iter().enumerate() {
            if *field < 0 || *field > i64::from(self.highest) {
                return None;
            }
            octets[i] = *field as u8;
        }
        Some(octets)
    }
}

impl DatapointType for Text {
    ghost meaning = { λ s. text s.highest };

    ghost lawful = { λ s. Laws.lawful s.highest s.octet };

    fn counts(&self) -> Counts {
        Counts {
            octets: OCTETS,
            fields: FIELDS,
        }
    }

    fn read(&self, payload: &[u8], out: &mut [i64]) -> Result<usize, Refusal> {
        let payload = payload
            .as_array::<OCTETS>()
            .ok_or(Refusal::WrongLength { due: OCTETS })?;
        if !self.is_legal(payload) {
            return Err(Refusal::IllegalPayload);
        }
        deliver(&fields(payload), out)
    }

    fn write(&self, reading: &[i64], out: &mut [u8]) -> Result<usize, Refusal> {
        let reading = reading
            .as_array::<FIELDS>()
            .ok_or(Refusal::WrongLength { due: FIELDS })?;
        let payload = self.proper(reading).ok_or(Refusal::IllegalReading)?;
        deliver(&payload, out)
    }
}

// Whether no octet is above the highest.
fn within(highest: u8, octets: &[u8]) -> bool
    ensures { result ≡ within highest octets.now }
{
    octets.iter().all(|octet| *octet <= highest)
}

// How many characters there are: the octets before the first 00.
fn character_count(octets: &[u8]) -> usize
    ensures count { result ≡ length (characters octets.now) }
    ensures within { result ≤ length octets.now }
{
    octets.iter().take_while(|octet| **octet != 0).count()
}

// Whether nothing but 00 stands after the characters.
fn ended(octets: &[u8]) -> bool
    ensures { result ≡ ended octets.now }
{
    within(0, &octets[character_count(octets)..])
}

// The characters as fields, and then 0.
fn fields(payload: &[u8; OCTETS]) -> [i64; FIELDS]
    ensures { result ≡ map pos (cleared payload.now) }
{
    let mut fields = [0; FIELDS];
    for (i, character) in payload[..character_count(payload)].iter().enumerate() {
        fields[i] = i64::from(*character);
    }
    fields
}
