//! Files and sinks in memory, which fail where they are told to.
use solv_io::{MemFiles, MemSink};
use solv_list::{Bytes, Items, Text};
use std::alloc::{AllocError, Global};

/// What a program reads and writes.
pub(crate) struct Stage {
    pub files: MemFiles,
    pub out: MemSink,
    pub err: MemSink,
}

impl Drop for Stage {
    fn drop(self) {
        let Stage {
            files: _,
            out: _,
            err: _,
        } = self;
    }
}

/// The numbers of the calls that fail: of files, of the output stream and of the error stream.
#[derive(Clone, Copy)]
pub(crate) struct Fails {
    pub files: &'static [u64],
    pub out: &'static [u64],
    pub err: &'static [u64],
}

/// No call fails.
pub(crate) const NONE: Fails = Fails {
    files: &[],
    out: &[],
    err: &[],
};

/// Appends a file to others.
fn put_file(
    alloc: Global,
    name: &str,
    bytes: &[u8],
    held: &mut Items<(Text, Bytes)>,
) -> Result<(), AllocError> {
    let name = Text::wrap(String::from_str(alloc, name)?);
    let bytes = Bytes::wrap(bytes.to_vec(alloc)?);
    held.push((name, bytes))?;
    Ok(())
}

/// The files of these names.
pub(crate) fn held(
    alloc: Global,
    texts: &[(&str, &[u8])],
) -> Result<Items<(Text, Bytes)>, AllocError> {
    let mut held = Items::wrap(Vec::new(alloc));
    for (name, bytes) in texts {
        put_file(alloc, name, bytes, &mut held)?;
    }
    Ok(held)
}

/// The same, of which the numbered calls fail.
pub(crate) fn files_of(
    alloc: Global,
    texts: &[(&str, &[u8])],
    fails: &[u64],
) -> Result<MemFiles, AllocError> {
    Ok(MemFiles {
        held: held(alloc, texts)?,
        asked: Items::wrap(Vec::new(alloc)),
        fails: Items::wrap(fails.to_vec(alloc)?),
        calls: 0,
        faults: 0,
    })
}

/// A sink that takes 8 bytes at a time. The numbered calls fail.
fn small_sink(alloc: Global, fails: &[u64]) -> Result<MemSink, AllocError> {
    Ok(MemSink {
        taken: Bytes::wrap(Vec::new(alloc)),
        most: 8,
        fails: Items::wrap(fails.to_vec(alloc)?),
        calls: 0,
        faults: 0,
    })
}

/// The files of these names, and two small sinks.
pub(crate) fn make_stage(
    alloc: Global,
    texts: &[(&str, &[u8])],
    fails: Fails,
) -> Result<Stage, AllocError> {
    Ok(Stage {
        files: files_of(alloc, texts, fails.files)?,
        out: small_sink(alloc, fails.out)?,
        err: small_sink(alloc, fails.err)?,
    })
}
