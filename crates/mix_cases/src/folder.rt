//! The cases that a folder holds.
use std::fs::DirEntry;
use std::{fs, io};

/// The name of an entry that is a folder: a case is one.
fn name_of_case(rt: &HostRuntime, entry: &DirEntry) -> io::Result<Option<String>> {
    if entry.file_type()?.is_dir() {
        return Ok(Some(String::from_str(rt.alloc(), entry.file_name())?));
    }
    Ok(None)
}

/// The names of the cases in a folder, in order.
pub fn names_of_cases(rt: &HostRuntime, folder: &str) -> io::Result<Vec<String>> {
    let mut names = Vec::new(rt.alloc());
    for entry in fs::read_dir(rt, folder)? {
        if let Some(name) = name_of_case(rt, &entry?)? {
            names.push(name)?;
        }
    }
    names.sort()?;
    Ok(names)
}
