// Fractions: `-`? DIGITS [`.` DIGITS], of at most 15 digits, so that both sides of the division are exact.
ghost use Rattle.std.specs.Prelude.{◌≡◌};
ghost use Rattle.decimals.specs.Fractions.{ratio_of, whole_fraction, point_fraction, unsigned_fraction, fraction_of};

use crate::numbers::{number, number_from};

const MAX_DIGITS: usize = 15;

// One rounded division.
#[tactic(auto, unfolding(crate::specs::Fractions::ratio_of))]
fn ratio(a: u64, b: u64) -> f64
    ensures { result ≡ ratio_of a b }
{
    std::num::nearest_u64_to_f64(a) / std::num::nearest_u64_to_f64(b)
}

// A fraction with no point.
fn whole_fraction(text: &[u8]) -> Option<f64>
    ensures { result ≡ whole_fraction text.now }
{
    if MAX_DIGITS < text.len() {
        return None;
    }
    let value = number(text)?;
    Some(ratio(value, 1))
}

// The digits before a point and those after it.
fn point_fraction(before: &[u8], after: &[u8]) -> Option<f64>
    ensures { result ≡ point_fraction before.now after.now }
{
    if MAX_DIGITS < before.len().saturating_add(after.len()) {
        return None;
    }
    let start = number(before)?;
    let value = number_from(start, after)?;
    Some(ratio(value, 10u64.pow(after.len() as u32)))
}

fn unsigned_fraction(text: &[u8]) -> Option<f64>
    ensures { result ≡ unsigned_fraction text.now }
{
    let Some(point) = text.iter().position(|&byte| byte == b'.') else {
        return whole_fraction(text);
    };
    point_fraction(&text[..point], &text[point + 1..])
}

// The fraction that a text says.
pub fn fraction(text: &[u8]) -> Option<f64>
    ensures { result ≡ fraction_of text.now }
{
    match text.strip_prefix(b"-") {
        Some(digits) => unsigned_fraction(digits).map(|value| -value),
        None => unsigned_fraction(text),
    }
}
