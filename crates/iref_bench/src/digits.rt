//! Digits and letters that texts are made of.
use iref_examples::chosen::chosen;
use std::alloc::AllocError;

static DIGITS: [&str; 16] = [
    "0", "1", "2", "3", "4", "5", "6", "7", "8", "9", "a", "b", "c", "d", "e", "f",
];

static LETTERS: [&str; 26] = [
    "a", "b", "c", "d", "e", "f", "g", "h", "i", "j", "k", "l", "m", "n", "o", "p", "q", "r", "s",
    "t", "u", "v", "w", "x", "y", "z",
];

/// Appends the last decimal digit of a number.
pub fn put_digit(text: &mut String, number: u64) -> Result<(), AllocError> {
    text.push_str(chosen(&DIGITS[..10], number))
}

/// Appends the last two decimal digits of a number.
pub fn put_two_digits(text: &mut String, number: u64) -> Result<(), AllocError> {
    put_digit(text, number / 10)?;
    put_digit(text, number)
}

/// Appends the last four decimal digits of a number.
pub fn put_four_digits(text: &mut String, number: u64) -> Result<(), AllocError> {
    put_two_digits(text, number / 100)?;
    put_two_digits(text, number)
}

/// Appends this many decimal digits, the last of the number first.
pub fn put_numeral(text: &mut String, number: u64, count: u64) -> Result<(), AllocError> {
    let mut rest = number;
    for _digit in 0..count {
        put_digit(text, rest)?;
        rest /= 10;
    }
    Ok(())
}

/// Appends this many hexadecimal digits, the last of the number first.
pub fn put_hex_digits(text: &mut String, number: u64, count: u64) -> Result<(), AllocError> {
    let mut rest = number;
    for _digit in 0..count {
        text.push_str(chosen(&DIGITS, rest))?;
        rest /= 16;
    }
    Ok(())
}

/// Appends this many letters. Numbers below 26 to the power of the count have letters that differ.
pub fn put_letters(text: &mut String, number: u64, count: u64) -> Result<(), AllocError> {
    let mut rest = number;
    for _letter in 0..count {
        text.push_str(chosen(&LETTERS, rest))?;
        rest /= 26;
    }
    Ok(())
}
