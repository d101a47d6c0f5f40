//! Exact decimal numbers and the numerals that spell them (XML Schema 1.0 Part 2, decimal, without exponents). The limits on digits are the project's own.

ghost use Rattle.std.specs.Prelude.{◌≡◌, ◌+◌, ◌*◌, ◌^◌, ◌<◌, ◌≤◌, ◌++◌, length, nat_lt, position, IsTrue, IfOk, nat_abs};
ghost use Rattle.std.specs.List.{list_all, before_first, after_first};
ghost use Rattle.std.specs.Char.{is_ascii_digit};
ghost use Rattle.filing_model.specs.Oim.Numerals.{number_of, without_front, without_end, is_point, is_negative};
ghost use Rattle.filing_model.specs.Oim.Numerals.{without_sign, signed, are_digits, are_few, size_of, size_of_few};
ghost use Rattle.filing_model.specs.Oim.Numerals.{place_sum, most_fraction_digits, most_whole_digits};
ghost use Rattle.oim_value.specs.Numbers.{HasFewDigits, number_limit};
ghost use Rattle.oim_value.specs.Reading.{IsReadAsSpelled};
ghost use Rattle.oim_value.specs.Padding.{is_padding};

use filing_model::NumberFault;
use std::marker::Model;

/// The most digits after the point of a numeral, trailing zeros dropped. The last of these places is a unit.
pub(crate) const MOST_FRACTION_DIGITS: usize = 15;

/// The most digits before the point of a numeral, leading zeros dropped.
pub(crate) const MOST_WHOLE_DIGITS: usize = 20;

/// An exact decimal number, of at most `MOST_WHOLE_DIGITS` (20) digits before the point and `MOST_FRACTION_DIGITS` (15) after it.
/// Contracts see it as a whole number of units, so numbers that are spelled in other ways are equal: `-0.0` is `0`, and `1.50` is `1.5`.
#[derive(Clone, Copy, Debug, PartialEq, Eq)]
pub struct Decimal {
    units: i128,
}

impl Model for Decimal {
    ghost use Rattle.std.specs.Prelude.{ℤ};
    ghost use Rattle.oim_value.specs.Numbers.{HasFewDigits};

    ghost Value = { ℤ };

    ghost view = { λ d. d.units };

    ghost inverse = { λ n. record { units = n } };

    ghost invariant = { λ d. HasFewDigits d.units };
}

impl Decimal {
    /// The number that a text spells: white space, a sign or none, digits with at most one point before, among or after them, white space.
    /// `NotANumber` where the text is no numeral; else `TooLarge` where it has more digits before or after the point than a numeral may have.
    /// Leading zeros and trailing zeros of the fraction do not count.
    pub fn read(text: &str) -> Result<Decimal, NumberFault>
        ensures number { result ≡ number_of text.now }
        ensures spelled { IsReadAsSpelled text.now result }
        ensures small { IfOk result HasFewDigits }
    {
        let units = units_of(text.as_bytes())?;
        Ok(Decimal { units })
    }

    /// How many units it is.
    pub(crate) fn units(self) -> i128
        ensures value { result ≡ self }
        ensures small { HasFewDigits self }
    {
        self.units
    }
}

/// How many units a text spells.
fn units_of(text: &[u8]) -> Result<i128, NumberFault>
    ensures value { result ≡ number_of text.now }
    ensures small { IfOk result HasFewDigits }
{
    let body = without_end(without_front(text, Padding::Blanks), Padding::Blanks);
    let size = size_of(without_sign(body))?;
    Ok(with_sign(is_negative(body), size))
}

fn with_sign(negative: bool, size: u128) -> i128
    requires { size < number_limit }
    ensures value { result ≡ signed negative size }
    ensures small { HasFewDigits result }
{
    let size = size as i128;
    if negative { -size } else { size }
}

/// The number without its sign.
fn size_of(digits: &[u8]) -> Result<u128, NumberFault>
    ensures value { result ≡ size_of digits.now }
    ensures small { IfOk result (λ size. size < number_limit) }
{
    let (whole, fraction) = around_point(digits);
    if !are_digits(whole, fraction) {
        return Err(NumberFault::NotANumber);
    }
    size_of_few(
        without_front(whole, Padding::Zeros),
        without_end(fraction, Padding::Zeros),
    )
}

fn size_of_few(whole: &[u8], fraction: &[u8]) -> Result<u128, NumberFault>
    requires { IsTrue (list_all is_ascii_digit (whole.now ++ fraction.now)) }
    ensures value { result ≡ size_of_few whole.now fraction.now }
    ensures small { IfOk result (λ size. size < number_limit) }
{
    if !are_few(whole, fraction) {
        return Err(NumberFault::TooLarge);
    }
    let number = with_digits(with_digits(0, whole), fraction);
    let places = MOST_FRACTION_DIGITS - fraction.len();
    Ok(number * 10u128.pow(places as u32))
}

/// The running number with further digits after it.
fn with_digits(mut number: u128, digits: &[u8]) -> u128
    requires few { (number + 1) * 10 ^ length digits.now ≤ number_limit }
    requires digits { IsTrue (list_all is_ascii_digit digits.now) }
    ensures value { result ≡ number * 10 ^ length digits.now + place_sum digits.now }
{
    for digit in digits {
        number = number * 10 + u128::from(*digit - b'0');
    }
    number
}

/// What may stand around the digits that count.
#[derive(Clone, Copy)]
enum Padding {
    Blanks,
    Zeros,
}

impl Padding {
    fn has(self, byte: u8) -> bool
        ensures { result ≡ is_padding self byte }
    {
        match self {
            Padding::Blanks => matches!(byte, b' ' | b'\t' | b'\n' | b'\r'),
            Padding::Zeros => byte == b'0',
        }
    }
}

/// The rest from the first byte that is no padding.
fn without_front(text: &[u8], padding: Padding) -> &[u8]
    ensures { result.now ≡ without_front (is_padding padding) text.now }
{
    let mut left = text;
    while let [first, rest @ ..] = left {
        if !padding.has(*first) {
            return left;
        }
        left = rest;
    }
    left
}

/// All up to the last byte that is no padding.
fn without_end(text: &[u8], padding: Padding) -> &[u8]
    ensures { result.now ≡ without_end (is_padding padding) text.now }
{
    let mut left = text;
    while let [rest @ .., last] = left {
        if !padding.has(*last) {
            return left;
        }
        left = rest;
    }
    left
}

fn is_negative(body: &[u8]) -> bool
    ensures { result ≡ is_negative body.now }
{
    matches!(body, [b'-', ..])
}

fn without_sign(body: &[u8]) -> &[u8]
    ensures { result.now ≡ without_sign body.now }
{
    match body {
        [b'+' | b'-', rest @ ..] => rest,
        _ => body,
    }
}

/// The place of the first point.
fn point(digits: &[u8]) -> Option<usize>
    ensures { result ≡ position is_point digits.now }
{
    digits.iter().position(|digit| *digit == b'.')
}

/// What stands before and after the first point; nothing stands after one that is missing.
fn around_point(digits: &[u8]) -> (&[u8], &[u8])
    ensures whole { result.0.now ≡ before_first is_point digits.now }
    ensures fraction { result.1.now ≡ after_first is_point digits.now }
{
    match point(digits) {
        Some(place) => (&digits[..place], &digits[place + 1..]),
        None => (digits, &[]),
    }
}

fn has_digit(whole: &[u8], fraction: &[u8]) -> bool
    ensures { result ≡ nat_lt 0 (length (whole.now ++ fraction.now)) }
{
    !whole.is_empty() || !fraction.is_empty()
}

fn all_digits(digits: &[u8]) -> bool
    ensures { result ≡ list_all is_ascii_digit digits.now }
{
    digits.iter().all(|digit| digit.is_ascii_digit())
}

fn are_digits(whole: &[u8], fraction: &[u8]) -> bool
    ensures { result ≡ are_digits (whole.now ++ fraction.now) }
{
    has_digit(whole, fraction) && all_digits(whole) && all_digits(fraction)
}

fn are_few(whole: &[u8], fraction: &[u8]) -> bool
    ensures { result ≡ are_few whole.now fraction.now }
{
    whole.len() <= MOST_WHOLE_DIGITS && fraction.len() <= MOST_FRACTION_DIGITS
}
