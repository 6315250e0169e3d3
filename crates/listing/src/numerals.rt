// Literals and numbers at the front of a text.
ghost use Rattle.std.specs.Prelude.{◌≡◌, ◌≤◌, IfSome};
ghost use Rattle.listing.specs.Read.{read_literal, read_digit, read_digits, read_whole, read_field, read_sub};
ghost use Rattle.listing.specs.Found.{found, passed};

use crate::keys::{MINUS, ZERO};

// The rest of the text behind `key`, where the text begins with that.
pub fn pass<'a>(text: &'a [u8], key: &[u8]) -> Option<&'a [u8]>
    ensures { passed result ≡ read_literal key.now text.now }
{
    text.strip_prefix(key)
}

fn read_digit(text: &[u8]) -> Option<(u8, &[u8])>
    ensures value { found result ≡ read_digit text.now }
    ensures most { IfSome result (λ p. p.0 ≤ 9) }
{
    match text {
        [c @ b'0'..=b'9', rest @ ..] => Some((*c - b'0', rest)),
        _ => None,
    }
}

// The digits of a number up to `limit`.
fn read_digits(mut text: &[u8], limit: u32) -> Option<(u32, &[u8])>
    ensures value { found result ≡ read_digits limit 0 text.now }
    ensures most { IfSome result (λ p. p.0 ≤ limit) }
{
    // Wider than the limit, so that there is room for one digit more.
    let mut n: u64 = 0;
    while let [c @ b'0'..=b'9', rest @ ..] = text {
        n = 10 * n + u64::from(*c - b'0');
        if n > u64::from(limit) {
            return None;
        }
        text = rest;
    }
    // At most the limit: `try_from` would have an error that can't come.
    Some((n as u32, text))
}

// A whole number up to `limit`.
fn read_whole(text: &[u8], limit: u32) -> Option<(u32, &[u8])>
    ensures value { found result ≡ read_whole limit text.now }
    ensures most { IfSome result (λ p. p.0 ≤ limit) }
{
    match text {
        [b'0', rest @ ..] => Some((0, rest)),
        [b'1'..=b'9', ..] => read_digits(text, limit),
        _ => None,
    }
}

// A whole number up to 65,535.
pub fn read_u16(text: &[u8]) -> Option<(u16, &[u8])>
    ensures { found result ≡ read_whole 65535 text.now }
{
    let (n, rest) = read_whole(text, 65_535)?;
    // At most 65,535: `try_from` would have an error that can't come.
    Some((n as u16, rest))
}

pub fn read_field(text: &[u8]) -> Option<(i64, &[u8])>
    ensures { found result ≡ read_field text.now }
{
    if let Some(text) = pass(text, MINUS) {
        return match read_whole(text, 2_147_483_648)? {
            (0, _) => None,
            (n, rest) => Some((-i64::from(n), rest)),
        };
    }
    let (n, rest) = read_whole(text, 4_294_967_295)?;
    Some((i64::from(n), rest))
}

// A sub number: a 0 and two digits, or three digits or more.
pub fn read_sub(text: &[u8]) -> Option<(u16, &[u8])>
    ensures { found result ≡ read_sub text.now }
{
    if let Some(rest) = pass(text, ZERO) {
        let (tens, rest) = read_digit(rest)?;
        let (ones, rest) = read_digit(rest)?;
        return Some((u16::from(10 * tens + ones), rest));
    }
    read_u16(text).filter(|(n, _)| *n >= 100)
}
