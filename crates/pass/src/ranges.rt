// Rule 1: what a step may say.
ghost use Rattle.std.specs.Prelude.{◌≡◌};
ghost use Rattle.layout.specs.Shaped.{Limits};
ghost use Rattle.rules.specs.Rules.{value_below, size_value, word_in_range, in_range};

use layout::Shape;
use layout::geometry::{head, is_size, map_words};
use steps::Step;

fn value_below(n: u32, v: Option<u32>) -> bool
    ensures { result ≡ value_below n v }
{
    v.is_none_or(|w| w < n)
}

fn is_size_value(g: Shape, v: Option<u32>) -> bool
    ensures { result ≡ size_value g v }
{
    v.is_some_and(|w| is_size(g, u64::from(w)))
}

// A MAP value: of a word before the units a size, of any other a unit or X.
#[tactic(auto, unfolding(rules::specs::Rules::word_in_range))]
fn word_in_range(g: Shape, word: u32, value: Option<u32>) -> bool
    requires { Limits g }
    ensures { result ≡ word_in_range g word value }
{
    if word < head(g) {
        is_size_value(g, value)
    } else {
        value_below(g.n, value)
    }
}

// Whether a step is in range.
pub fn in_range(g: Shape, s: Step) -> bool
    requires { Limits g }
    ensures { result ≡ in_range g s }
{
    match s {
        Step::Data { unit, piece, write } => unit < g.n && piece < g.p && write == 0,
        Step::Map { map, word, value } => map < g.m
            && word < map_words(g)
            && word_in_range(g, word, value),
        Step::Link { chunk, value } => chunk < g.c && value_below(g.m, value),
        Step::Fence => true,
    }
}
