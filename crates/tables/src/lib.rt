// Several image files one after the other, each after a line with its name: the programs whose
// stored runs are tables of cases.
#![tactic(auto)]

use files::repairing::repair_file;
use host::saying::{complain, conclude, text};
use host::{NAME_ROOM, arguments};
use std::env::Env;
use views::listing::list_file;

// Argument i on a line of its own, or an empty line where it is too long for the name of a file.
fn name_line(rt: HostRuntime, i: usize) {
    let mut name = [0u8; NAME_ROOM];
    if let Ok(length) = rt.arg(i, &mut name) {
        text(rt, &name[..length]);
    }
    text(rt, b"\n");
}

// What `show` says of each argument, after a line with its name.
fn show_cases<F: Fn(usize)>(rt: HostRuntime, usage: &[u8], show: F)
    requires { F.IsAlwaysCallable show }
{
    let n = arguments::count(rt);
    if n < 2 {
        conclude(rt, Err(complain(rt, b"usage", usage).into()));
        return;
    }
    for i in 1..n {
        name_line(rt, i);
        show(i);
    }
}

// Lists the volumes in several files.
pub fn list_all(rt: HostRuntime) {
    show_cases(rt, b"list_cases FILE..", |i| conclude(rt, list_file(rt, i)));
}

// Repairs several image files in place, and lists each afterwards.
pub fn repair_all(rt: HostRuntime) {
    show_cases(rt, b"repair_cases FILE..", |i| {
        conclude(rt, repair_file(rt, i));
        conclude(rt, list_file(rt, i));
    });
}
