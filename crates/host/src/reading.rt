// Files that arguments name, read into lent room.
ghost use Rattle.std.specs.Prelude.{◌≡◌, ◌≤◌, length, take, IfOk};

use crate::arguments::file_name;
use crate::opening::open_read;
use crate::saying::{complain, fail};
use crate::{NAME_ROOM, ReadError, Told};
use std::fs::File;
use std::io::{Read, Seek, SeekFrom};

// Reads until the room is full, the file ends or a read fails, and says how many bytes stand at the
// start of the room.
fn read_full(file: &mut File, room: &mut [u8]) -> usize
    ensures { result ≤ length room.new }
{
    let mut done: usize = 0;
    while done < room.len() {
        match file.read(&mut room[done..]) {
            Ok(0) | Err(_) => break,
            Ok(n) => done += n,
        }
    }
    done
}

// Whether a file was read to its end, by what a further read answers: its end, a byte more, or a
// failure. `full` is whether the room is full; where it is not and a byte comes all the same, an
// earlier read had failed.
fn at_end(rt: HostRuntime, file: &mut File, name: &[u8], full: bool) -> Result<(), ReadError> {
    let mut byte = [0u8; 1];
    match file.read(&mut byte) {
        Ok(0) => Ok(()),
        Ok(_) if full => Err(ReadError::Long),
        Ok(_) => Err(complain(rt, name, b"a read was interrupted").into()),
        Err(e) => Err(fail(rt, name, &e).into()),
    }
}

// Reads an open file, and says how many bytes it has.
pub fn read_open(
    rt: HostRuntime,
    file: &mut File,
    name: &[u8],
    room: &mut [u8],
) -> Result<usize, ReadError>
    ensures within { IfOk result (λ n. n ≤ length room.new) }
    ensures prefix { IfOk result (λ n. n ≡ length (take n room.new)) }
{
    let length = read_full(file, room);
    at_end(rt, file, name, length == room.len())?;
    Ok(length)
}

// Reads the file of a name.
fn read_named(rt: HostRuntime, name: &[u8], room: &mut [u8]) -> Result<usize, ReadError>
    ensures within { IfOk result (λ n. n ≤ length room.new) }
    ensures prefix { IfOk result (λ n. n ≡ length (take n room.new)) }
{
    let mut file = open_read(rt, name)?;
    read_open(rt, &mut file, name, room)
}

// Reads the file that argument i names.
pub fn read_file(rt: HostRuntime, i: usize, room: &mut [u8]) -> Result<usize, ReadError>
    ensures within { IfOk result (λ n. n ≤ length room.new) }
    ensures prefix { IfOk result (λ n. n ≡ length (take n room.new)) }
{
    let mut name = [0u8; NAME_ROOM];
    let length = file_name(rt, i, &mut name)?;
    read_named(rt, &name[..length], room)
}

// How many bytes the file of a name has. A pipe cannot tell.
fn named_length(rt: HostRuntime, name: &[u8]) -> Result<u64, Told> {
    let mut file = open_read(rt, name)?;
    file.seek(SeekFrom::End(0))
        .map_err(|_| complain(rt, name, b"its length cannot be told"))
}

// How many bytes the file has that argument i names.
pub fn file_length(rt: HostRuntime, i: usize) -> Result<u64, Told> {
    let mut name = [0u8; NAME_ROOM];
    let length = file_name(rt, i, &mut name)?;
    named_length(rt, &name[..length])
}
