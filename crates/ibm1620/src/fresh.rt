// New files of a source's texts, which a job that ends before it makes the texts leaves empty.
use command_line::Read;
use outside_io::Unit;
use std::fs;
use std::io::ErrorKind;

// The names of the files that a source's texts go to and that are not there. A job that makes no texts of a source has none.
#[derive(Clone, Copy)]
pub(crate) struct Fresh<'a> {
    names: [Option<&'a str>; 3],
}

impl<'a> Fresh<'a> {
    // Looks before the job begins.
    pub(crate) fn before(rt: &HostRuntime, read: &Read<'a>) -> Fresh<'a> {
        let names = [
            absent_file(rt, read, Unit::Object),
            absent_file(rt, read, Unit::Image),
            absent_file(rt, read, Unit::Listing),
        ];
        Fresh { names }
    }

    // Removes the files that are there now and have no byte. A file that can't be removed stays.
    pub(crate) fn remove_empty(&self, rt: &HostRuntime) {
        for name in self.names {
            let Some(name) = name else {
                continue;
            };
            if is_empty(rt, name) {
                let _ = fs::remove_file(rt, name);
            }
        }
    }
}

// The name of the unit's file, if the words name one and it does not exist.
fn absent_file<'a>(rt: &HostRuntime, read: &Read<'a>, unit: Unit) -> Option<&'a str> {
    let name = read.file(unit)?;
    if is_absent(rt, name) {
        Some(name)
    } else {
        None
    }
}

// Whether there is nothing of this name, not even a link.
fn is_absent(rt: &HostRuntime, name: &str) -> bool {
    match fs::symlink_metadata(rt, name) {
        Ok(_) => false,
        Err(error) => error.kind() == ErrorKind::NotFound,
    }
}

// Whether it is a file without a byte.
fn is_empty(rt: &HostRuntime, name: &str) -> bool {
    match fs::symlink_metadata(rt, name) {
        Ok(found) => found.is_file() && found.len() == 0,
        Err(_) => false,
    }
}
