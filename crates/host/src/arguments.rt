// The arguments: numbers, fractions, requests, and the names of files.
ghost use Rattle.std.specs.Prelude.{◌≤◌, length, IfOk};

use crate::saying::complain;
use crate::{ARGUMENT_ROOM, Told};
use decimals::{fractions, numbers};
use report::Level;
use std::env::{Env, FillError};
use steps::Request;

// Whether argument i is there. It need not fit anywhere.
fn is_there(rt: HostRuntime, i: usize) -> bool {
    !matches!(rt.arg(i, &mut []), Err(FillError::NotPresent))
}

// How many arguments there are, the program's own name among them.
pub fn count(rt: HostRuntime) -> usize {
    (0..usize::MAX)
        .find(|&i| !is_there(rt, i))
        .unwrap_or(usize::MAX)
}

// Whether there are `n` arguments, the program's own name among them. An argument too many is as
// wrong as a missing one: it was meant for something.
pub fn are(rt: HostRuntime, n: usize, usage: &[u8]) -> Result<(), Told> {
    if count(rt) == n {
        return Ok(());
    }
    Err(complain(rt, b"usage", usage))
}

// Puts argument i at the start of the room, and says how long it is. Where it is missing or longer
// than the room, the reason is told, after `what` it is to be.
fn fetch(rt: HostRuntime, i: usize, what: &[u8], room: &mut [u8]) -> Result<usize, Told>
    ensures { IfOk result (λ n. n ≤ length room.new) }
{
    match rt.arg(i, room) {
        Ok(n) => Ok(n),
        Err(FillError::TooLong) => Err(complain(rt, what, b"File name too long")),
        Err(FillError::NotPresent) => Err(complain(rt, what, b"Invalid argument")),
    }
}

// The same of an argument that names a file.
pub fn file_name(rt: HostRuntime, i: usize, room: &mut [u8]) -> Result<usize, Told>
    ensures { IfOk result (λ n. n ≤ length room.new) }
{
    fetch(rt, i, b"file name", room)
}

// What argument i says, which is to be `what` as `read` reads it. Where it is none, `wrong` is told.
fn said<T, F: FnOnce(&[u8]) -> Option<T>>(
    rt: HostRuntime,
    i: usize,
    what: &[u8],
    wrong: &[u8],
    read: F,
) -> Result<T, Told>
    requires { F.IsAlwaysCallable read }
{
    let mut room = [0u8; ARGUMENT_ROOM];
    let length = fetch(rt, i, what, &mut room)?;
    let text = &room[..length];
    read(text).ok_or_else(|| complain(rt, wrong, text))
}

// The number that argument i says.
pub fn number(rt: HostRuntime, i: usize) -> Result<u64, Told> {
    said(rt, i, b"number", b"not a decimal number", numbers::number)
}

// The fraction that argument i says.
pub fn fraction(rt: HostRuntime, i: usize) -> Result<f64, Told> {
    said(
        rt,
        i,
        b"fraction",
        b"not a decimal fraction of at most 15 digits",
        fractions::fraction,
    )
}

// Whether argument i is a word.
pub fn is_word(rt: HostRuntime, i: usize, word: &[u8]) -> bool {
    let mut room = [0u8; ARGUMENT_ROOM];
    match rt.arg(i, &mut room) {
        Ok(length) => &room[..length] == word,
        Err(_) => false,
    }
}

// The request that the arguments from i on say, and no other argument: `write CHUNK SIZE` or
// `discard CHUNK`.
pub fn request(rt: HostRuntime, i: usize, usage: &[u8]) -> Result<Request, Told>
    requires { i ≤ 4 }
{
    if is_word(rt, i, b"write") {
        are(rt, i + 3, usage)?;
        let chunk = number(rt, i + 1)?;
        let size = number(rt, i + 2)?;
        return Ok(Request::Write { chunk, size });
    }
    if is_word(rt, i, b"discard") {
        are(rt, i + 2, usage)?;
        let chunk = number(rt, i + 1)?;
        return Ok(Request::Discard { chunk });
    }
    Err(complain(rt, b"usage", usage))
}

// The alarm level that arguments 2 and 3 say: `units COUNT` or `fraction DECIMAL`.
pub fn level(rt: HostRuntime, usage: &[u8]) -> Result<Level, Told> {
    if is_word(rt, 2, b"units") {
        return Ok(Level::Count(number(rt, 3)?));
    }
    if is_word(rt, 2, b"fraction") {
        return Ok(Level::Fraction(fraction(rt, 3)?));
    }
    Err(complain(rt, b"usage", usage))
}
