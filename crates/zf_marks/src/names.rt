//! The digits with which the names end that saves draw.

/// How many digits a number has.
pub const DIGITS: usize = 16;

/// Writes the last digits of a name anew, as those of a number.
pub fn put_number(name: &mut String, value: u64) {
    take_number(name);
    add_number(name, value);
}

/// Takes the last digits of a name away.
pub fn take_number(name: &mut String) {
    for _ in 0..DIGITS {
        name.pop();
    }
}

/// Writes the digits of a number behind a name, from which as many were taken, so that no memory is asked for.
pub fn add_number(name: &mut String, value: u64) {
    for at in 0..16u32 {
        let digit = (value >> (60 - 4 * at)) % 16;
        let _ = name.push(char::from_digit(digit as u32, 16).unwrap_or('0'));
    }
}

/// The number with which a name ends that is this stem and a number.
pub fn number_behind(stem: &str, name: &[u8]) -> Option<u64> {
    let digits = name.strip_prefix(stem.as_bytes())?;
    if digits.len() != DIGITS {
        return None;
    }
    let mut value = 0u64;
    for digit in digits {
        let digit = match *digit {
            b'0'..=b'9' => *digit - b'0',
            b'a'..=b'f' => *digit - b'a' + 10,
            _ => return None,
        };
        value = value.wrapping_mul(16) | u64::from(digit);
    }
    Some(value)
}
