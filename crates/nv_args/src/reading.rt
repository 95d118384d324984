//! What a value gives, lent.
ghost use Rattle.std.specs.Prelude.{◌≡◌, ◌<◌, IfSome, option_map, is_some};
ghost use Rattle.nv_value.specs.View.{content};
ghost use Rattle.nv_msgpack.specs.Handle.{integer_of};
ghost use Rattle.nv_args.specs.Arguments.{truth_in, string_in};
ghost use Rattle.nv_args.specs.KeyValues.{integer_between, integer_from, number_between, number_from, colour_in, colour_in_words, colour_of_digits};
ghost use Rattle.nv_args.specs.inside.Colours.{colour_of_parts, two_digits, hex_value};

use nv_value::Value;

/// An Integer.
pub fn integer_of(value: &Value) -> Option<i64>
    ensures { result ≡ integer_of (content value.now) }
{
    match value {
        Value::Int(number) => Some(*number),
        _ => None,
    }
}

/// A Boolean: an integer is true where it isn't 0.
pub fn truth_of(value: &Value) -> Option<bool>
    ensures { result ≡ truth_in (content value.now) }
{
    match value {
        Value::Truth(truth) => Some(*truth),
        Value::Int(number) => Some(*number != 0),
        _ => None,
    }
}

/// The bytes of a string.
pub fn name_in(value: &Value) -> Option<&[u8]>
    ensures { option_map (λ name. name.now) result ≡ string_in (content value.now) }
{
    match value {
        Value::Text(bytes) | Value::Bin(bytes) => Some(bytes.as_slice()),
        _ => None,
    }
}

/// An integer from a least to a greatest one.
pub fn integer_between(value: &Value, low: u32, high: u32) -> Option<u32>
    ensures { result ≡ integer_between low high (content value.now) }
{
    match integer_of(value) {
        Some(number) => number_between(number, low, high),
        None => None,
    }
}

fn number_between(number: i64, low: u32, high: u32) -> Option<u32>
    ensures { result ≡ number_between low high number }
{
    if i64::from(low) <= number && number <= i64::from(high) {
        Some(number as u32)
    } else {
        None
    }
}

/// An integer from a least one on.
pub fn integer_from(value: &Value, low: u32) -> Option<u64>
    ensures { result ≡ integer_from low (content value.now) }
{
    match integer_of(value) {
        Some(number) => number_from(number, low),
        None => None,
    }
}

fn number_from(number: i64, low: u32) -> Option<u64>
    ensures { result ≡ number_from low number }
{
    if i64::from(low) <= number {
        Some(number as u64)
    } else {
        None
    }
}

/// A colour: `Some(None)` is none of its own.
pub fn colour_of(value: &Value) -> Option<Option<u32>>
    ensures { result ≡ colour_in (content value.now) }
{
    match name_in(value) {
        Some(words) => colour_of_words(words),
        None => match integer_between(value, 0, 16_777_215) {
            Some(colour) => Some(Some(colour)),
            None => None,
        },
    }
}

fn colour_of_words(words: &[u8]) -> Option<Option<u32>>
    ensures { result ≡ colour_in_words words.now }
{
    if words == b"NONE".as_slice() {
        return Some(None);
    }
    match words {
        [b'#', digits @ ..] => match colour_of_digits(digits) {
            Some(colour) => Some(Some(colour)),
            None => None,
        },
        _ => None,
    }
}

fn colour_of_digits(digits: &[u8]) -> Option<u32>
    ensures { result ≡ colour_of_digits digits.now }
{
    match digits {
        [a, b, c, d, e, f] => {
            colour_of_parts(two_digits(*a, *b), two_digits(*c, *d), two_digits(*e, *f))
        }
        _ => None,
    }
}

// A colour by its red, green and blue.
fn colour_of_parts(red: Option<u32>, green: Option<u32>, blue: Option<u32>) -> Option<u32>
    requires red { IfSome red (λ part. part < 256) }
    requires green { IfSome green (λ part. part < 256) }
    requires blue { IfSome blue (λ part. part < 256) }
    ensures { result ≡ colour_of_parts red green blue }
{
    match (red, green, blue) {
        (Some(red), Some(green), Some(blue)) => Some((red * 256 + green) * 256 + blue),
        _ => None,
    }
}

// The number of two hexadecimal digits.
fn two_digits(first: u8, second: u8) -> Option<u32>
    ensures number { result ≡ two_digits first second }
    ensures small { IfSome result (λ number. number < 256) }
{
    match (hex_value(first), hex_value(second)) {
        (Some(first), Some(second)) => Some(first * 16 + second),
        _ => None,
    }
}

fn hex_value(byte: u8) -> Option<u32>
    ensures number { result ≡ hex_value byte }
    ensures small { IfSome result (λ digit. digit < 16) }
{
    match byte {
        b'0'..=b'9' => Some(u32::from(byte) - 48),
        b'A'..=b'F' => Some(u32::from(byte) - 55),
        b'a'..=b'f' => Some(u32::from(byte) - 87),
        _ => None,
    }
}
