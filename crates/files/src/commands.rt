// The programs that make or change files: what each does with its arguments, and its last line.
use crate::converting::convert_file;
use crate::formatting::format_file;
use crate::repairing::repair_file;
use host::saying::conclude;
use host::{Failure, Told, Word, arguments};
use layout::{FIRST_EDITION, LAST_EDITION};

// The numbers P, C, M and N of a fresh volume, from argument 2 on.
fn fresh_numbers(rt: HostRuntime) -> Result<[u64; 4], Told> {
    let p = arguments::number(rt, 2)?;
    let c = arguments::number(rt, 3)?;
    let m = arguments::number(rt, 4)?;
    let n = arguments::number(rt, 5)?;
    Ok([p, c, m, n])
}

fn fresh_one(rt: HostRuntime) -> Result<Option<Word>, Failure> {
    arguments::are(rt, 6, b"fresh FILE P C M N")?;
    let [p, c, m, n] = fresh_numbers(rt)?;
    format_file(rt, FIRST_EDITION, p, c, m, n, 0)
}

// Makes a fresh volume of edition 1 in a new file.
pub fn fresh(rt: HostRuntime) {
    conclude(rt, fresh_one(rt));
}

fn fresh2_one(rt: HostRuntime) -> Result<Option<Word>, Failure> {
    arguments::are(rt, 7, b"fresh2 FILE P C M N R")?;
    let [p, c, m, n] = fresh_numbers(rt)?;
    let r = arguments::number(rt, 6)?;
    format_file(rt, LAST_EDITION, p, c, m, n, r)
}

// The same of edition 2, which has one number more, its reserved units.
pub fn fresh2(rt: HostRuntime) {
    conclude(rt, fresh2_one(rt));
}

fn convert_one(rt: HostRuntime) -> Result<Option<Word>, Failure> {
    arguments::are(rt, 3, b"convert_image IMAGE NEWFILE")?;
    convert_file(rt)
}

// Converts an image of edition 1 to edition 2, in a new file.
pub fn convert_image(rt: HostRuntime) {
    conclude(rt, convert_one(rt));
}

fn repair_one(rt: HostRuntime) -> Result<Option<Word>, Failure> {
    arguments::are(rt, 2, b"repair_image IMAGE")?;
    repair_file(rt, 1)
}

// Repairs an image file in place, and prints the chunks that were unlinked.
pub fn repair_image(rt: HostRuntime) {
    conclude(rt, repair_one(rt));
}
