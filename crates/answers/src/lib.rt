// What the C interface answers: the numbers of every answer and refusal, and load with its answer in words.
#![tactic(auto)]

use indexed::HeldShape;

pub mod loading;
pub mod numbers;

// What a call answers: number 0, with a value and an extent; or a refusal's number and place (the second for 6 alone), with value and extent 0.
#[repr(C)]
#[derive(Clone, Copy)]
pub struct Answer {
    pub number: u64,
    pub place: u64,
    pub second: u64,
    pub value: u64,
    pub extent: u64,
}

// What a report answers: the same numbers, and the report's record, all 0 on a refusal.
#[repr(C)]
#[derive(Clone, Copy)]
pub struct ReportAnswer {
    pub number: u64,
    pub place: u64,
    pub second: u64,
    pub mapped: u64,
    pub held: u64,
    pub free: u64,
    pub saved: u64,
    pub held_ratio: f64,
    pub saved_ratio: f64,
}

// What a shape answers: the same numbers, and the edition with P, C, M, N and R, all 0 on a refusal.
#[repr(C)]
#[derive(Clone, Copy)]
pub struct ShapeAnswer {
    pub number: u64,
    pub place: u64,
    pub second: u64,
    pub edition: u64,
    pub p: u64,
    pub c: u64,
    pub m: u64,
    pub n: u64,
    pub r: u64,
}

// What opening an image answers: the same numbers, and the shape that the index holds, all 0 on a refusal.
#[repr(C)]
#[derive(Clone, Copy)]
pub struct Opened {
    pub answer: Answer,
    pub index: HeldShape,
}
