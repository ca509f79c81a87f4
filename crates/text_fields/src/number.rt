//! Decimal numbers.
ghost use Rattle.std.specs.Prelude.{◌≡◌, ◌^◌, ◌≤◌, true, false, length, MatchOption};
ghost use Rattle.std.specs.Char.{is_ascii_digit};
ghost use Rattle.std.specs.List.{list_all};
ghost use Rattle.std.specs.Str.Parse.{digits_value};
ghost use Rattle.text_fields.specs.Number.{has_leading_zero, is_decimal, number_in};

/// The number that the text is, where it is one from `least` to `last`: decimal digits alone, without
/// a leading zero.
pub fn read_number(text: &[u8], least: u64, last: u64) -> Option<u64>
    ensures { result ≡ number_in least last text.now }
{
    if text.len() <= 18 {
        read_short(text, least, last)
    } else {
        read_long(text, least, last)
    }
}

// Up to 18 digits: no product or sum of theirs passes 64 bits.
fn read_short(text: &[u8], least: u64, last: u64) -> Option<u64>
    requires { length text.now ≤ 18 }
    ensures { result ≡ number_in least last text.now }
{
    if text.is_empty() || has_leading_zero(text) {
        return None;
    }
    let number = short_value(text)?;
    if least <= number && number <= last {
        Some(number)
    } else {
        None
    }
}

// The number of these digits; None where an octet is none.
fn short_value(text: &[u8]) -> Option<u64>
    requires { length text.now ≤ 18 }
    ensures { MatchOption result (list_all is_ascii_digit text.now ≡ false)
        (λ n. (list_all is_ascii_digit text.now ≡ true) × (n ≡ digits_value 10 text.now)) }
{
    let mut number: u64 = 0;
    for digit in text {
        let value = digit.wrapping_sub(b'0');
        if value > 9 {
            return None;
        }
        number = number * 10 + u64::from(value);
    }
    Some(number)
}

fn read_long(text: &[u8], least: u64, last: u64) -> Option<u64>
    ensures { result ≡ number_in least last text.now }
{
    if !is_decimal(text) {
        return None;
    }
    let Some(number) = value(text) else {
        return None;
    };
    if least <= number && number <= last {
        Some(number)
    } else {
        None
    }
}

fn is_decimal(text: &[u8]) -> bool
    ensures { result ≡ is_decimal text.now }
{
    !text.is_empty() && !has_leading_zero(text) && are_digits(text)
}

fn are_digits(text: &[u8]) -> bool
    ensures { result ≡ list_all is_ascii_digit text.now }
{
    text.iter().all(|digit| digit.is_ascii_digit())
}

fn has_leading_zero(text: &[u8]) -> bool
    ensures { result ≡ has_leading_zero text.now }
{
    text.len() > 1 && text[0] == b'0'
}

// The number of these digits; None exactly where it has more than 64 bits.
fn value(digits: &[u8]) -> Option<u64>
    requires { list_all is_ascii_digit digits.now ≡ true }
    ensures { MatchOption result (2 ^ 64 ≤ digits_value 10 digits.now) (λ n. n ≡ digits_value 10 digits.now) }
{
    let mut number: u64 = 0;
    for digit in digits {
        let Some(tens) = number.checked_mul(10) else {
            return None;
        };
        let Some(more) = tens.checked_add(u64::from(*digit - b'0')) else {
            return None;
        };
        number = more;
    }
    Some(number)
}
