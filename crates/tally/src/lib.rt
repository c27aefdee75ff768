// A tally: a word with a bit for each number below 63 that is still expected, once each. Bit 63 is set where a number comes that is not expected, or is not
// right, and stays. A tally goes by value from step to step, so it is a word and no lent set.
#![tactic(auto)]

ghost use Rattle.std.specs.Prelude.{◌≡◌, true, false, ◌^◌, ◌≤◌, ◌<◌};
ghost use Rattle.search.specs.Sets.{put};
ghost use Rattle.tally.specs.Tallies.{in_word, word_of_set, expected, tick_off};

// The bit that a wrong number sets: no number from 63 on is ever expected.
const WRONG: u32 = 63;

// The word with bit j alone.
fn bit(j: u32) -> u64
    requires { j < 64 }
    ensures { result ≡ 2 ^ j }
{
    1u64 << j
}

// The tally that expects the numbers below n.
pub fn expect(n: u32) -> u64
    requires { n < 64 }
    ensures { result ≡ expected n }
{
    bit(n) - 1
}

// Whether number j is still expected.
fn is_expected(left: u64, j: u32) -> bool
    requires { j < 64 }
    ensures { result ≡ in_word left j }
{
    (left >> j) % 2 == 1
}

// The tally without number j.
fn without(left: u64, j: u32) -> u64
    requires { j < 64 }
    ensures { result ≡ word_of_set (put (in_word left) j false) }
{
    let b = bit(j);
    // The bit is set first, so that the difference clears it and never wraps.
    (left | b) - b
}

// The tally after a wrong number.
fn spoilt(left: u64) -> u64
    ensures { result ≡ word_of_set (put (in_word left) 63 true) }
{
    left | bit(WRONG)
}

// The tally after number j comes, right or not.
#[tactic(auto, unfolding(crate::specs::Tallies::ticked, crate::specs::Tallies::tick_off))]
pub fn tick_off(left: u64, j: u32, right: bool) -> u64
    ensures { result ≡ tick_off left j right }
{
    if j < WRONG && is_expected(left, j) && right {
        without(left, j)
    } else {
        spoilt(left)
    }
}
