//! Files keep their bytes, and standard output takes a piece.
use crate::tests::have::have;
use crate::tests::memory::{expect_put, expect_take};
use mix_outside::{Buffered, FileSink, FileSource, OutSink, Put, Take};
use std::alloc::Global;
use std::fs::{self, File};
use std::path::PathBuf;
use std::process::Abort;
use std::{env, io, process};

/// A path of this process alone.
fn own_path(rt: &HostRuntime) -> io::Result<PathBuf> {
    let id = process::id(rt.process());
    let mut path = env::temp_dir(rt)?;
    let name = format!(in rt.alloc(); "mix_test_base_{id}")?;
    path.push(name.as_str())?;
    drop(name);
    Ok(path)
}

fn source_of(file: File) -> FileSource {
    FileSource::new(file)
}

fn sink_of(file: File) -> FileSink {
    FileSink::new(file)
}

fn write_two_pieces(rt: &impl Abort, file: File) {
    let mut sink = sink_of(file);
    expect_put(rt, &mut sink, b"abc", Put::Done);
    expect_put(rt, &mut sink, b"defg", Put::Done);
    drop(sink);
}

fn read_seven_bytes(rt: &impl Abort, alloc: Global, file: File) {
    let mut source = have(rt, Buffered::new(alloc, source_of(file)));
    let mut came = Vec::new(alloc);
    for take in [Take::Bytes(4), Take::Bytes(3), Take::End] {
        expect_take(rt, &mut source, take, &mut came);
    }
    assert!(rt; came.as_slice() == b"abcdefg".as_slice());
    drop(came);
    drop(source);
}

/// A file that is opened for reading takes nothing.
fn write_in_vain(rt: &impl Abort, file: File) {
    let mut closed = sink_of(file);
    expect_put(rt, &mut closed, b"h", Put::Failed);
    drop(closed);
}

#[test]
fn a_file_gives_back_what_was_written(rt: HostRuntime) {
    let path = have(&rt, own_path(&rt));
    write_two_pieces(&rt, have(&rt, File::create(&rt, path.as_path())));
    read_seven_bytes(&rt, rt.alloc(), have(&rt, File::open(&rt, path.as_path())));
    write_in_vain(&rt, have(&rt, File::open(&rt, path.as_path())));
    have(&rt, fs::remove_file(&rt, path.as_path()));
    drop(path);
}

#[test]
fn standard_output_takes_a_piece(rt: HostRuntime) {
    let mut sink = OutSink::new(rt.stdout());
    expect_put(&rt, &mut sink, b"taken\n", Put::Done);
}
