// The space report of a volume, and its alarm.
#![tactic(auto)]

pub mod alarms;
pub mod reports;

use layout::Refusal;

// Mapped chunks, held, free and saved units, held / N and saved / (mapped * P). Saved units are mapped * P less held; the last ratio is 0.0 when
// nothing is mapped.
#[derive(Clone, Copy)]
pub struct Report {
    pub mapped: u32,
    pub held: u32,
    pub free: u32,
    pub saved: u32,
    pub held_ratio: f64,
    pub saved_ratio: f64,
}

// An alarm level: a count of free units, or a fraction of N.
#[derive(Clone, Copy)]
pub enum Level {
    Count(u64),
    Fraction(f64),
}

// What `alarm` answers.
#[derive(Clone, Copy)]
pub enum Alarm {
    Sounds,
    Silent,
}
