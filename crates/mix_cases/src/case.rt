//! A case: the texts that a run is made from, and what it has to leave.
use std::{fs, io};

/// What a run is made from, and what it has to leave.
#[derive(Drop)]
pub struct Case {
    pub collection: Vec<u8>,
    pub script: Vec<u8>,
    pub output: Vec<u8>,
    pub record: Vec<u8>,
    pub status: u8,
}

fn read_file(rt: &HostRuntime, folder: &str, name: &str, file: &str) -> io::Result<Vec<u8>> {
    let path = format!(in rt.alloc(); "{folder}/{name}/{file}")?;
    fs::read(rt, path.as_str())
}

/// The bytes of a file that a case may leave out, which is as an empty one.
fn read_if_there(rt: &HostRuntime, folder: &str, name: &str, file: &str) -> io::Result<Vec<u8>> {
    match read_file(rt, folder, name, file) {
        Err(error) if error.kind() == io::ErrorKind::NotFound => Ok(Vec::new(rt.alloc())),
        read => read,
    }
}

/// The status that a text names, 0 where it is empty, or none.
fn status_of(text: &[u8]) -> Option<u8> {
    let text = str::from_utf8(text).ok()?.trim();
    if text.is_empty() {
        return Some(0);
    }
    text.parse::<u8>().ok()
}

fn read_status(rt: &HostRuntime, folder: &str, name: &str) -> io::Result<u8> {
    let text = read_if_there(rt, folder, name, "status")?;
    match status_of(text.as_slice()) {
        Some(status) => Ok(status),
        None => Err(io::Error::from(io::ErrorKind::InvalidData)),
    }
}

impl Case {
    /// Reads the case of a name: `collection`, `script` and `output`, and, where they are there,
    /// the bytes of `record` and the number of `status`.
    pub fn read(rt: &HostRuntime, folder: &str, name: &str) -> io::Result<Case> {
        Ok(Case {
            collection: read_file(rt, folder, name, "collection")?,
            script: read_file(rt, folder, name, "script")?,
            output: read_file(rt, folder, name, "output")?,
            record: read_if_there(rt, folder, name, "record")?,
            status: read_status(rt, folder, name)?,
        })
    }
}
