// The programs that only look at an image: what each does with its arguments, and its last line.
use crate::listing::list_file;
use crate::sizing::size_file;
use crate::space::{alarm_file, report_file};
use host::saying::conclude;
use host::{Failure, Word, arguments};

fn list_one(rt: HostRuntime) -> Result<Option<Word>, Failure> {
    arguments::are(rt, 2, b"list FILE")?;
    list_file(rt, 1)
}

// Lists the volume in a file.
pub fn list(rt: HostRuntime) {
    conclude(rt, list_one(rt));
}

fn report_one(rt: HostRuntime) -> Result<Option<Word>, Failure> {
    arguments::are(rt, 2, b"report_on IMAGE")?;
    report_file(rt)
}

// Reports on the space of a volume.
pub fn report_on(rt: HostRuntime) {
    conclude(rt, report_one(rt));
}

fn alarm_one(rt: HostRuntime) -> Result<Option<Word>, Failure> {
    let usage = b"alarm_at IMAGE units COUNT | fraction DECIMAL";
    arguments::are(rt, 4, usage)?;
    let level = arguments::level(rt, usage)?;
    alarm_file(rt, level)
}

// Says whether the alarm of a volume sounds at a level.
pub fn alarm_at(rt: HostRuntime) {
    conclude(rt, alarm_one(rt));
}

fn size_one(rt: HostRuntime) -> Result<Option<Word>, Failure> {
    arguments::are(rt, 3, b"size_of IMAGE CHUNK")?;
    let chunk = arguments::number(rt, 2)?;
    size_file(rt, chunk)
}

// Prints the stored size of a chunk.
pub fn size_of(rt: HostRuntime) {
    conclude(rt, size_one(rt));
}
