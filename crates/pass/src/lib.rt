// One pass over a plan: what it keeps of the steps, and the verdict of document 01's rules on that.
#![tactic(auto)]

pub mod ranges;
pub mod seeing;
pub mod verdicts;

// Rule 5: whether all stood in order so far, whether there was a LINK, whether the last step was a FENCE, and whether there was a step.
#[derive(Clone, Copy)]
pub struct Order {
    pub good: bool,
    pub linked: bool,
    pub fenced: bool,
    pub any: bool,
}

// What is kept of the steps so far: tallies of rule 2's pieces, of rule 3's words and of rule 4's LINK steps; the map of the first MAP step, X before it; the
// word that the last LINK step stores; and the order of rule 5. Words, then truth values: a copy has no padding between them to carry along.
// As it is: `map` and `linked` are words with X among them, since rule 4 compares the two, X too (`target`, `keeps4`): an Option would be undone there.
#[derive(Clone, Copy)]
pub struct Seen {
    pub pieces: u64,
    pub words: u64,
    pub links: u64,
    pub map: u64,
    pub linked: u64,
    pub order: Order,
}

// What a request's plan is due: its LINK is of the chunk, the first `heads` words of its map hold the size, and piece j goes on the unit at place j of those
// dealt, as the word after the heads says.
#[derive(Clone, Copy)]
pub struct Due<'a> {
    pub chunk: u64,
    pub heads: u32,
    pub size: u64,
    pub dealt: &'a [u32],
}
