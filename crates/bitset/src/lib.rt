// Sets of numbers as lent words of 64 bits, any number of them: bit u mod 64 of word u/64 is 1 where u is in the set.
#![tactic(auto)]

ghost use Rattle.std.specs.Prelude.{◌≡◌, true, not, ◌&&◌, ℕ, ◌+◌, ◌*◌, ◌/◌, ◌%◌, ◌^◌, ◌<◌, ◌≤◌, length, take, replicate, ltb, leb};
ghost use Rattle.std.proofs.lemmas.List.Edits.{sets};
ghost use Rattle.search.specs.Search.{first_or};
ghost use Rattle.bitset.specs.Bits.{bits, bit_set, in_set, limit, words_for, inserted, removed, members_from, members, members_below};

// A word with all its bits.
const FULL: u64 = 18446744073709551615;

// Whether u is in the set: no number past the last word is.
pub fn contains(set: &[u64], u: u64) -> bool
    ensures { result ≡ in_set set.now u }
{
    let i = (u / 64) as usize;
    if set.len() <= i {
        return false;
    }
    let word = set[i];
    (word >> (u % 64)) % 2 == 1
}

// The word with bit u mod 64 alone.
fn bit(u: usize) -> u64
    ensures { result ≡ 2 ^ (u % 64) }
{
    1u64 << (u % 64)
}

// Puts u into the set, where i is the number of its word.
pub fn place(set: &mut [u64], i: usize, u: usize)
    requires { (i ≡ u / 64) × (i < length set.old) }
    ensures { set.new ≡ inserted set.old u }
{
    let b = bit(u);
    set[i] = set[i] | b;
}

// Puts u into the set, and answers whether it has a bit there: past the last word nothing changes.
pub fn insert(set: &mut [u64], u: u64) -> bool
    ensures value { result ≡ ltb u (limit set.old) }
    ensures set_after { set.new ≡ inserted set.old u }
{
    let i = u / 64;
    if set.len() as u64 <= i {
        return false;
    }
    place(set, i as usize, u as usize);
    true
}

// Takes u out of the set: past the last word nothing changes.
pub fn remove(set: &mut [u64], u: usize)
    ensures { set.new ≡ removed set.old u }
{
    let b = bit(u);
    let i = u / 64;
    if set.len() <= i {
        return;
    }
    // The bit is set first, so that the difference clears it and never wraps.
    set[i] = (set[i] | b) - b;
}

// Word i of the set of the numbers below n.
fn word_below(n: usize, i: usize) -> u64
    ensures { result ≡ bits (λ u. ltb u n) (64 * i) 64 }
{
    let last = n / 64;
    if i < last {
        return FULL;
    }
    if last < i {
        return 0;
    }
    bit(n) - 1
}

// Makes the set that of the numbers below n, as far as it has bits for them.
pub fn fill(set: &mut [u64], n: usize)
    ensures { set.new ≡ bit_set (λ u. ltb u n) (length set.old) }
{
    let last = n / 64;
    let full = last.min(set.len());
    for i in 0..full {
        set[i] = FULL;
    }
    if full < set.len() {
        set[full] = bit(n) - 1;
    }
    for i in full + 1..set.len() {
        set[i] = 0;
    }
}

// Takes the numbers below `low`, which are all in the set as far as it has bits for them, out of it.
fn clear_below(set: &mut [u64], low: usize)
    requires { (u : ℕ) → u < low → u < limit set.old → in_set set.old u ≡ true }
    ensures { set.new ≡ bit_set (λ u. leb low u && in_set set.old u) (length set.old) }
{
    // The words past that of `low` have none of them.
    for i in 0..set.len() {
        if low / 64 < i {
            return;
        }
        set[i] = set[i] - word_below(low, i);
    }
}

// Makes the set that of the numbers from `low` on and below `high`, as far as it has bits for them.
pub fn fill_between(set: &mut [u64], low: usize, high: usize)
    requires { low ≤ high }
    ensures { set.new ≡ bit_set (λ u. leb low u && ltb u high) (length set.old) }
{
    fill(set, high);
    clear_below(set, low);
}

// The words of a set that has a bit for each number below n.
pub fn words_for(n: usize) -> usize
    requires { n + 63 < 2 ^ 64 }
    ensures { result ≡ words_for n }
{
    (n + 63) / 64
}

// Puts into an empty set, which has just the words that the numbers below `high` need, the numbers below `low` and those from `high` on.
pub fn fill_outside(set: &mut [u64], low: usize, high: usize)
    requires low_lt_high { low < high }
    requires set_value { set.old ≡ replicate (words_for high) 0 }
    ensures { set.new ≡ bit_set (λ u. not (leb low u && ltb u high)) (words_for high) }
{
    for at in 0..low / 64 + 1 {
        set[at] = word_below(low, at);
    }
    let last = set.len() - 1;
    // The numbers below `low` are below `high`, so that the sum never wraps.
    set[last] = set[last] + (FULL - word_below(high, last));
}

// Makes the set that of the numbers that were not in it, among those that have a bit.
pub fn invert(set: &mut [u64])
    ensures { set.new ≡ bit_set (λ u. not (in_set set.old u)) (length set.old) }
{
    for at in 0..set.len() {
        set[at] = FULL - set[at];
    }
}

// The lowest member from word `first` on, or the limit where there is none.
fn next_in_words(set: &[u64], first: usize) -> usize
    requires { limit set.now < 2 ^ 64 }
    ensures { result ≡ first_or (limit set.now) (members_from set.now (64 * first)) }
{
    for i in first..set.len() {
        let word = set[i];
        if word != 0 {
            return 64 * i + u64::trailing_zeros(word) as usize;
        }
    }
    64 * set.len()
}

// The lowest member from `start` on, or the limit where there is none.
pub fn next_member(set: &[u64], start: usize) -> usize
    requires { limit set.now < 2 ^ 64 }
    ensures { result ≡ first_or (limit set.now) (members_from set.now start) }
{
    let i = start / 64;
    if set.len() <= i {
        return 64 * set.len();
    }
    // The word of `start`, with the members below it shifted out.
    let rest = set[i] >> (start % 64);
    if rest != 0 {
        return start + u64::trailing_zeros(rest) as usize;
    }
    next_in_words(set, i + 1)
}

// How many members the first `end` words of the set have.
fn count_words(set: &[u64], end: usize) -> usize
    requires { (limit set.now < 2 ^ 64) × (end ≤ length set.now) }
    ensures { result ≡ length (members_below set.now (64 * end)) }
{
    let mut n: usize = 0;
    for i in 0..end {
        n += u64::count_ones(set[i]) as usize;
    }
    n
}

// How many members the set has.
pub fn count(set: &[u64]) -> usize
    requires { limit set.now < 2 ^ 64 }
    ensures { result ≡ length (members set.now) }
{
    count_words(set, set.len())
}

// How many members below n the set has: past its last word there is none.
pub fn count_below(set: &[u64], n: u32) -> u32
    requires { limit set.now < 2 ^ 64 }
    ensures { result ≡ length (members_below set.now n) }
{
    let end = n as usize;
    let last = end / 64;
    if set.len() <= last {
        return count(set) as u32;
    }
    // The word of n, with the members from n on masked out.
    let word = set[last] & word_below(end, last);
    (count_words(set, last) + u64::count_ones(word) as usize) as u32
}

// Stores the lowest members below `end` in `out`, rising, as many as it has room for, and answers how many.
pub fn lowest(set: &[u64], end: u32, out: &mut [u32]) -> usize
    requires { limit set.now < 2 ^ 64 }
    ensures value { result ≡ length (take (length out.old) (members_below set.now end)) }
    ensures out_after { out.new ≡ sets out.old 0 (take (length out.old) (members_below set.now end)) }
{
    let mut j: usize = 0;
    for i in 0..set.len() {
        if out.len() <= j {
            return j;
        }
        // The members in word i: the lowest is taken and cleared, as long as there is one.
        let mut rest = set[i] & word_below(end as usize, i);
        while rest != 0 {
            if out.len() <= j {
                return j;
            }
            out[j] = (64 * i + u64::trailing_zeros(rest) as usize) as u32;
            j += 1;
            rest = rest & (rest - 1);
        }
    }
    j
}
