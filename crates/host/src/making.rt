// Files that are made or changed. The contents of each are synced before the program says so; a new
// file's folder is not.
use crate::arguments::file_name;
use crate::opening::{create, open_update};
use crate::saying::fail;
use crate::{NAME_ROOM, Told};
use std::fs::{File, remove_file};
use std::io;
use std::io::{Seek, SeekFrom, Write};
use std::str::from_utf8;

// Writes bytes to an open file from where it stands, and waits until they have reached its device.
fn write_through(file: &mut File, bytes: &[u8]) -> io::Result<()> {
    file.write_all(bytes)?;
    file.sync_all()
}

// The same, where the reason of a failure is told.
fn put(rt: HostRuntime, file: &mut File, name: &[u8], bytes: &[u8]) -> Result<(), Told> {
    write_through(file, bytes).map_err(|e| fail(rt, name, &e))
}

// Removes a file that was made and could not be written whole. Where that fails too, nothing more
// can be done.
fn remove(rt: HostRuntime, name: &[u8]) {
    if let Ok(path) = from_utf8(name) {
        let _ = remove_file(&rt, path);
    }
}

// Makes a new file of some bytes. A file that has the name already is left as it is; one that could
// not be written whole is removed again.
pub fn make_named(rt: HostRuntime, name: &[u8], bytes: &[u8]) -> Result<(), Told> {
    let mut file = create(rt, name)?;
    let made = put(rt, &mut file, name, bytes);
    if made.is_err() {
        remove(rt, name);
    }
    made
}

// Makes the new file that argument i names.
pub fn make_file(rt: HostRuntime, i: usize, bytes: &[u8]) -> Result<(), Told> {
    let mut name = [0u8; NAME_ROOM];
    let length = file_name(rt, i, &mut name)?;
    make_named(rt, &name[..length], bytes)
}

// Writes an open file anew from its start, as many bytes as it has.
pub fn rewrite(rt: HostRuntime, file: &mut File, name: &[u8], bytes: &[u8]) -> Result<(), Told> {
    file.seek(SeekFrom::Start(0))
        .map_err(|e| fail(rt, name, &e))?;
    put(rt, file, name, bytes)
}

// The same of the file of a name, which must be there.
fn rewrite_named(rt: HostRuntime, name: &[u8], bytes: &[u8]) -> Result<(), Told> {
    let mut file = open_update(rt, name)?;
    rewrite(rt, &mut file, name, bytes)
}

// The same of the file that argument i names.
pub fn rewrite_file(rt: HostRuntime, i: usize, bytes: &[u8]) -> Result<(), Told> {
    let mut name = [0u8; NAME_ROOM];
    let length = file_name(rt, i, &mut name)?;
    rewrite_named(rt, &name[..length], bytes)
}
