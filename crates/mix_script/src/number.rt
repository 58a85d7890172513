//! Numbers as they stand in a line.
ghost use Rattle.std.specs.Prelude.{◌≡◌, ◌<◌, ◌^◌, IsTrue};
ghost use Rattle.std.specs.Option.{SomeIff};
ghost use Rattle.std.specs.Str.Parse.{digits_value};
ghost use Rattle.std.specs.Char.{is_ascii_digit};
ghost use Rattle.std.specs.List.{list_all};
ghost use Rattle.mix_script.specs.Lines.{connection_of};
ghost use Rattle.mix_script.specs.Numbers.{is_number, number_up_to};

use mix_base::ConnId;

/// The number of a connection.
pub fn read_connection(digits: &[u8]) -> Option<ConnId>
    ensures { result ≡ connection_of digits.now }
{
    match read_number(digits, u64::from(u32::MAX)) {
        Some(number) => Some(ConnId(number as u32)),
        None => None,
    }
}

/// The number that digits write without needless zeros, where it isn't above the greatest one.
pub fn read_number(digits: &[u8], greatest: u64) -> Option<u64>
    ensures { result ≡ number_up_to greatest digits.now }
{
    if !is_number(digits) {
        return None;
    }
    match value_of(digits) {
        Some(number) if number <= greatest => Some(number),
        _ => None,
    }
}

/// The value of digits, where it's below 2^64.
fn value_of(digits: &[u8]) -> Option<u64>
    requires { IsTrue (is_number digits.now) }
    ensures { SomeIff result (digits_value 10 digits.now < 2 ^ 64) (digits_value 10 digits.now) }
{
    match str::from_utf8(digits) {
        Ok(text) => text.parse::<u64>().ok(),
        Err(_) => unreachable!(),
    }
}

/// Whether bytes are digits, at least one, without needless zeros.
fn is_number(digits: &[u8]) -> bool
    ensures { result ≡ is_number digits.now }
{
    if digits.is_empty() || (digits[0] == b'0' && digits.len() > 1) {
        return false;
    }
    are_digits(digits)
}

fn are_digits(digits: &[u8]) -> bool
    ensures { result ≡ list_all is_ascii_digit digits.now }
{
    digits.iter().all(|b| b.is_ascii_digit())
}
