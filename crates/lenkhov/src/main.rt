//! The program: it asks the system for its words and its files, and hands the answers to
//! `mix_program`, which says what each comes to. Trusted edge: the bare calls.
//!
//! Each object is made in a function of its own, which lends it to the next and then lets it go.
#![tactic(auto)]

use mix_base::Text;
use mix_outside::{FileSink, FileSource, OutSink};
use mix_program::{Paths, Place, Status, had, keep_apart, paths_of, run_offline, words_of};
use std::fs::File;
use std::os::unix::fs::MetadataExt;
use std::process::ExitCode;
use std::{env, io};

/// Where the system keeps an open file, whatever it was named by.
fn place_of(file: &File) -> io::Result<Place> {
    let known = file.metadata()?;
    Ok(Place {
        device: known.dev(),
        node: known.ino(),
    })
}

/// Empties a file. A device and a pipe keep no bytes.
fn empty(file: &File) -> io::Result<()> {
    if file.metadata()?.is_file() {
        file.set_len(0)?;
    }
    Ok(())
}

/// Where the two files are that are read.
#[derive(Clone, Copy)]
struct Sources {
    collection: Place,
    script: Place,
}

/// Empties the record, once it is known to be neither of the files that are read.
fn make_ready(tape: &File, sources: Sources) -> Result<(), Status> {
    keep_apart(had(place_of(tape))?, sources.collection, sources.script)?;
    had(empty(tape))
}

/// Runs with all files open.
fn run_files(
    rt: &HostRuntime,
    words: &[Text],
    collection: &mut FileSource,
    script: &mut FileSource,
    tape: &mut FileSink,
) -> Status {
    let mut out = OutSink::new(rt.stdout());
    let status = run_offline(rt.alloc(), words, collection, script, &mut out, tape);
    drop(out);
    status
}

/// Opens the record, and runs with it.
fn open_tape(
    rt: &HostRuntime,
    words: &[Text],
    paths: Paths<'_>,
    sources: Sources,
    collection: &mut FileSource,
    script: &mut FileSource,
) -> Status {
    let mut how = File::options();
    how.write(true).create(true);
    match had(how.open(rt, paths.tape.as_str())) {
        Ok(file) => {
            let ready = make_ready(&file, sources);
            let mut tape = FileSink::new(file);
            let status = match ready {
                Ok(()) => run_files(rt, words, collection, script, &mut tape),
                Err(status) => status,
            };
            drop(tape);
            status
        }
        Err(status) => status,
    }
}

/// Opens the script, and runs with it.
fn open_script(
    rt: &HostRuntime,
    words: &[Text],
    paths: Paths<'_>,
    place: Place,
    collection: &mut FileSource,
) -> Status {
    match had(File::open(rt, paths.script.as_str())) {
        Ok(file) => {
            let known = had(place_of(&file));
            let mut script = FileSource::new(file);
            let status = match known {
                Ok(other) => {
                    let sources = Sources {
                        collection: place,
                        script: other,
                    };
                    open_tape(rt, words, paths, sources, collection, &mut script)
                }
                Err(status) => status,
            };
            drop(script);
            status
        }
        Err(status) => status,
    }
}

/// Opens the collection, and runs with it.
fn open_collection(rt: &HostRuntime, words: &[Text], paths: Paths<'_>) -> Status {
    match had(File::open(rt, paths.collection.as_str())) {
        Ok(file) => {
            let known = had(place_of(&file));
            let mut collection = FileSource::new(file);
            let status = match known {
                Ok(place) => open_script(rt, words, paths, place, &mut collection),
                Err(status) => status,
            };
            drop(collection);
            status
        }
        Err(status) => status,
    }
}

fn run(rt: &HostRuntime) -> Status {
    match words_of(rt.alloc(), env::args(rt)) {
        Ok(words) => {
            let status = match paths_of(words.as_slice()) {
                Ok(paths) => open_collection(rt, words.as_slice(), paths),
                Err(status) => status,
            };
            drop(words);
            status
        }
        Err(status) => status,
    }
}

fn main(rt: HostRuntime) -> ExitCode {
    ExitCode::from(run(&rt).0)
}
