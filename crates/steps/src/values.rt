// A MAP or LINK value: as a field of a step, and as a word of the image.
ghost use Rattle.std.specs.Prelude.{◌≡◌};
ghost use Rattle.steps.specs.Steps.{value_of, field_of, word_of};

use crate::ABSENT_FIELD;
use layout::ABSENT;

// The value that a field says.
pub fn value_of(field: u32) -> Option<u32>
    ensures { result ≡ value_of field }
{
    (field != ABSENT_FIELD).then_some(field)
}

// The field that a value is written as.
pub fn field_of(value: Option<u32>) -> u32
    ensures { result ≡ field_of value }
{
    value.unwrap_or(ABSENT_FIELD)
}

// The word that a value is stored as.
pub fn word_of(value: Option<u32>) -> u64
    ensures { result ≡ word_of value }
{
    value.map_or(ABSENT, u64::from)
}
