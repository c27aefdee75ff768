// The two sets in a run of words.
ghost use Rattle.std.specs.Prelude.{◌≡◌, ◌≤◌, length};
ghost use Rattle.renewal.specs.Renewal.{set_words, units_in, maps_in};

use image::{Free, UNIT_SET_WORDS};
use renewal::SET_WORDS;

// What a run of words says is free: the words past those of the two sets are of no account.
pub(crate) fn free_in(sets: &[u64]) -> Free
    requires { set_words ≤ length sets.now }
    ensures units { result.units.now ≡ units_in sets.now }
    ensures maps { result.maps.now ≡ maps_in sets.now }
{
    Free {
        units: &sets[..UNIT_SET_WORDS],
        maps: &sets[UNIT_SET_WORDS..SET_WORDS],
    }
}
