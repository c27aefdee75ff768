// Files opened by names.
use crate::Told;
use crate::saying::{complain, fail};
use std::fs::{File, OpenOptions};
use std::str::from_utf8;

// Opens the file of a name. Where it cannot be opened, the reason is told. A name that is not UTF-8
// is one that std cannot pass on.
fn open_named(rt: HostRuntime, how: &OpenOptions, name: &[u8]) -> Result<File, Told> {
    let Ok(path) = from_utf8(name) else {
        return Err(complain(rt, name, b"not a name in UTF-8"));
    };
    how.open(&rt, path).map_err(|e| fail(rt, name, &e))
}

// To read it.
pub(crate) fn open_read(rt: HostRuntime, name: &[u8]) -> Result<File, Told> {
    open_named(rt, OpenOptions::new().read(true), name)
}

// To read it and to write it anew in place.
pub fn open_update(rt: HostRuntime, name: &[u8]) -> Result<File, Told> {
    open_named(rt, OpenOptions::new().read(true).write(true), name)
}

// To write a file that is not there yet.
pub(crate) fn create(rt: HostRuntime, name: &[u8]) -> Result<File, Told> {
    open_named(rt, OpenOptions::new().write(true).create_new(true), name)
}
