// Decimal numbers of any length.
ghost use Rattle.std.specs.Prelude.{◌≡◌, ◌≤◌};
ghost use Rattle.decimals.specs.Numbers.{appended, number_from, number_of};

// A number with one digit more, or the greatest one where that is past it.
fn append(value: u64, digit: u8) -> u64
    requires { (48 ≤ digit) × (digit ≤ 57) }
    ensures { result ≡ appended value digit }
{
    value
        .saturating_mul(10)
        .saturating_add(u64::from(digit - b'0'))
}

// A number with the digits of a text after its own, or the greatest one where that is past it.
pub(crate) fn number_from(start: u64, text: &[u8]) -> Option<u64>
    ensures { result ≡ number_from start text.now }
{
    if text.is_empty() {
        return None;
    }
    let mut value = start;
    for &byte in text {
        if !byte.is_ascii_digit() {
            return None;
        }
        value = append(value, byte);
    }
    Some(value)
}

// The number that a text of digits says, or the greatest one where it says more.
pub fn number(text: &[u8]) -> Option<u64>
    ensures { result ≡ number_of text.now }
{
    number_from(0, text)
}
