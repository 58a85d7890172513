//! From the text of a number to its value.
ghost use Rattle.std.specs.Prelude.{◌≡◌, ◌==◌, ◌<◌, ◌^◌, length, option_map, pos, slice_index};
ghost use Rattle.std.specs.Prelude.{IfSome, IsTrue, Some, true, false};
ghost use Rattle.std.specs.Str.Parse.{digits_value, AllDigits};
ghost use Rattle.fast_float.specs.Text.{scan};
ghost use Rattle.serde_json.specs.Find.{as_i64};
ghost use Rattle.serde_json.specs.Read.{float_of, number_from, number_of};
ghost use Rattle.mix_json.specs.Reading.{whole_or_frac};

use fast_float::Numeral;
use mix_base::Json;

/// The greatest whole number, 2^63 - 1.
const GREATEST: u64 = i64::MAX as u64;

/// A digit more than these make 18, which fit any number.
const SEVENTEEN_DIGITS: u64 = 99_999_999_999_999_999;

/// What a number's text says: none where it's beyond a double's range, and within that none where it
/// is a fraction.
pub(crate) fn number(text: &str) -> Option<Option<i64>>
    ensures value { result ≡ option_map as_i64 (number_of text.now) }
{
    let bytes = text.as_bytes();
    if has_minus(bytes) {
        negative(&bytes[1..])
    } else {
        positive(bytes)
    }
}

/// The whole number that a text of at most 18 digits is.
#[inline(always)]
#[tactic(auto, using(crate::proofs::NumberLemmas::short))]
pub(crate) fn short_number(text: &str) -> Option<i64>
    ensures value { IfSome result (λ n. option_map as_i64 (number_of text.now) ≡ Some (Some n)) }
{
    few_digits(text.as_bytes())
}

/// The value of a whole number, or of a fraction.
pub(crate) fn whole_or_frac(whole: Option<i64>) -> Json
    ensures value { result ≡ whole_or_frac whole }
{
    match whole {
        Some(whole) => Json::Int(whole),
        None => Json::Frac,
    }
}

/// Whether a sign stands in front.
fn has_minus(bytes: &[u8]) -> bool
    ensures value { result ≡ (slice_index bytes.now 0 == 45) }
    ensures some { IsTrue result → 0 < length bytes.now }
{
    match bytes.first() {
        Some(first) => *first == b'-',
        None => false,
    }
}

/// The number without a sign that begins a text.
fn positive(text: &[u8]) -> Option<Option<i64>>
    ensures value { result ≡ option_map as_i64 (number_from false (scan text.now)) }
{
    match few_digits(text) {
        Some(whole) => Some(Some(whole)),
        None => positive_numeral(&Numeral::scan(text)),
    }
}

/// The number that begins a text, with a sign in front. Zero with one is a fraction.
fn negative(text: &[u8]) -> Option<Option<i64>>
    ensures value { result ≡ option_map as_i64 (number_from true (scan text.now)) }
{
    match few_digits(text) {
        Some(whole) if whole > 0 => Some(Some(-whole)),
        _ => negative_numeral(&Numeral::scan(text)),
    }
}

/// The number of at most 18 digits that a text is.
#[inline(always)]
fn few_digits(text: &[u8]) -> Option<i64>
    ensures some { IfSome result (λ _. 0 < length text.now) }
    ensures digits { IfSome result (λ _. AllDigits 10 text.now) }
    ensures value { IfSome result (λ n. n ≡ pos (digits_value 10 text.now)) }
    ensures bound { IfSome result (λ _. digits_value 10 text.now < 2 ^ 63) }
{
    if text.is_empty() {
        return None;
    }
    let mut value: u64 = 0;
    for byte in text {
        if !byte.is_ascii_digit() || value > SEVENTEEN_DIGITS {
            return None;
        }
        value = value * 10 + (*byte - b'0') as u64;
    }
    Some(value as i64)
}

/// The value of a numeral without a sign.
fn positive_numeral(numeral: &Numeral<'_>) -> Option<Option<i64>>
    ensures value { result ≡ option_map as_i64 (number_from false numeral.now) }
{
    match numeral.to_u64() {
        Some(number) => if number <= GREATEST {
            Some(Some(number as i64))
        } else {
            Some(None)
        },
        None => fraction(false, numeral),
    }
}

/// The value of a numeral with a sign in front.
fn negative_numeral(numeral: &Numeral<'_>) -> Option<Option<i64>>
    ensures value { result ≡ option_map as_i64 (number_from true numeral.now) }
{
    match numeral.to_i64(true) {
        Some(whole) if whole < 0 => Some(Some(whole)),
        _ => fraction(true, numeral),
    }
}

/// The value of a numeral that no whole number of 64 bits is.
fn fraction(minus: bool, numeral: &Numeral<'_>) -> Option<Option<i64>>
    ensures value { result ≡ option_map as_i64 (float_of minus numeral.now) }
{
    if numeral.to_float::<f64>(minus).is_finite() {
        Some(None)
    } else {
        None
    }
}
