// Plans: the steps of a write or a discard, their 16 bytes both ways, the reader of a plan, and what a request says.
#![tactic(auto)]

mod decode;
pub mod encode;
pub mod reading;
pub mod requests;
pub mod values;

// The bytes of a step: four u32, of which the first is its kind.
pub const STEP_BYTES: usize = 16;

pub const DATA: u32 = 1;

pub const MAP: u32 = 2;

pub const LINK: u32 = 3;

pub const FENCE: u32 = 4;

// X in a field of a step. A word of the image has layout's ABSENT.
pub const ABSENT_FIELD: u32 = 4294967295;

// The four kinds of step. `write` is a DATA step's last field, which rule 1 wants 0.
#[derive(Clone, Copy)]
pub enum Step {
    Data {
        unit: u32,
        piece: u32,
        write: u32,
    },
    Map {
        map: u32,
        word: u32,
        value: Option<u32>,
    },
    Link {
        chunk: u32,
        value: Option<u32>,
    },
    Fence,
}

// What a plan is for: a write of a compressed size, or a discard.
#[derive(Clone, Copy)]
pub enum Request {
    Write { chunk: u64, size: u64 },
    Discard { chunk: u64 },
}

// A plan, and how many of its steps have been read.
#[derive(Clone, Copy)]
pub struct Reader<'a> {
    pub plan: &'a [u8],
    pub at: usize,
}

// What a reader found, and the reader past it.
#[derive(Clone, Copy)]
pub struct Advanced<'a> {
    pub found: Option<Option<Step>>,
    pub rest: Reader<'a>,
}
