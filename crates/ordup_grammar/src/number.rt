ghost use Rattle.std.specs.Prelude.{◌≡◌, ◌<◌, ◌≤◌, unsigned_abs};
ghost use Rattle.std.specs.Int.{saturate_signed, w64};
ghost use Rattle.ordup_objects.specs.Sizes.{greatest_value};
ghost use Rattle.ordup_grammar.specs.Numbers.{magnitude_of, number_of, amount_of, DecimalsReadBack, NumbersAreDecimals};

use crate::sizes::MOST_DIGITS;
use std::marker::Model;

/// A whole number as a script writes it: at most 19 digits, so between -(10^19 - 1) and 10^19 - 1. Zero has no sign.
#[derive(Clone, Copy)]
pub struct Number {
    // -1 below zero, else 1. It is as wide as the magnitude, so that no bytes lie between the fields. Such bytes would be written
    // with each request that can hold a number, which takes a tenth of the time of a short line.
    sign: i64,
    magnitude: u64,
}

impl Model for Number {
    ghost use Rattle.std.specs.Prelude.{ℤ};

    ghost Value = { ℤ };

    ghost use Rattle.ordup_grammar.specs.NumberInside.{value_of, IsNumber, inside_of};

    ghost view = { value_of };

    ghost invariant = { IsNumber };

    ghost inverse = { inside_of };
}

impl Number {
    // promise: a number has 1 to 19 digits, no `+`, no `-0`, no zero in front
    /// The number that a word writes: an optional minus and 1 to 19 digits, with no plus, no zero in front of other
    /// digits and no minus before 0.
    pub fn parse(word: &[u8]) -> Option<Number>
        ensures { result ≡ number_of word.now }
    {
        let [b'-', digits @ ..] = word else {
            let magnitude = parse_magnitude(word)?;
            return Some(Number { sign: 1, magnitude });
        };
        match parse_magnitude(digits)? {
            0 => None,
            magnitude => Some(Number {
                sign: -1,
                magnitude,
            }),
        }
    }

    // promise nearest exact far: a number becomes the nearest `i64`; as a size, one below 0 is above all
    /// The number where it fits, else the `i64` nearest to it.
    pub fn value(self) -> i64
        ensures nearest { result ≡ saturate_signed w64 self }
        ensures exact { unsigned_abs self ≤ greatest_value → result ≡ self }
        ensures far { greatest_value < unsigned_abs self → greatest_value < unsigned_abs result }
    {
        if self.sign < 0 {
            0i64.saturating_sub_unsigned(self.magnitude)
        } else {
            0i64.saturating_add_unsigned(self.magnitude)
        }
    }

    // promise: as Number::value
    /// The number where it is not negative, else the greatest `u64`: a negative number counts as above every size.
    pub fn amount(self) -> u64
        ensures { result ≡ amount_of self }
    {
        if self.sign < 0 {
            u64::MAX
        } else {
            self.magnitude
        }
    }
}

/// The number that 1 to 19 digits write, with no zero in front of others.
fn parse_magnitude(digits: &[u8]) -> Option<u64>
    ensures { result ≡ magnitude_of digits.now }
{
    if digits.is_empty() || digits.len() > MOST_DIGITS || (digits[0] == b'0' && digits.len() > 1) {
        return None;
    }
    let mut magnitude = 0u64;
    for digit in digits {
        if !digit.is_ascii_digit() {
            return None;
        }
        magnitude = magnitude * 10 + u64::from(*digit - b'0');
    }
    Some(magnitude)
}

// promise: a number of at most 19 digits reads back from its decimal text alone
/// A law: the decimal text of a number of at most 19 digits reads back as that number.
pub fn decimals_read_back()
    ensures { DecimalsReadBack }
{}

// promise: as decimals_read_back
/// A law: a word that reads as a number is the decimal text of that number, which has at most 19 digits.
pub fn numbers_are_decimals()
    ensures { NumbersAreDecimals }
{}
