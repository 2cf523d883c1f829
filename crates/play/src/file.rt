// Reading a file whole, and writing a new one. The name of a file is text, as std has it.
use super::errors::{Fault, Limit};
use std::alloc::Global;
use std::fs::{File, OpenFile, OpenOptions};
use std::io;
use std::io::{Error, ErrorKind, Read, Write};
use std::rt::Files;
use std::str::from_utf8;

// The longest file.
const BYTES: Limit = Limit {
    thing: "file",
    most: 131071,
    of_what: "bytes",
};

fn path_of(name: &[u8]) -> io::Result<&str> {
    from_utf8(name).map_err(|_| Error::new(ErrorKind::InvalidFilename, "the name is not UTF-8"))
}

fn open<R: Files>(files: &R, name: &[u8]) -> io::Result<R::File> {
    File::open(files, path_of(name)?)
}

// Reads on to the end of a file, or to one byte more than it may have.
fn read_on(file: &mut impl Read, contents: &mut Vec<u8>) -> io::Result<usize> {
    // No From makes a u64 of a usize.
    file.by_ref()
        .take(BYTES.most as u64 + 1)
        .read_to_end(contents)
}

// A file's bytes, as many as are read. What has been read before a read fails is taken for all. Where no byte was read, it reads
// once more: a terminal may go on after an end of its input.
fn read_all(alloc: Global, mut file: impl Read + Drop) -> Result<Vec<u8>, Fault> {
    let mut contents = Vec::with_capacity(alloc, BYTES.most + 1)?;
    let outcome = read_on(&mut file, &mut contents);
    if contents.is_empty() {
        outcome?;
        read_on(&mut file, &mut contents).ok();
    }
    Ok(contents)
}

pub fn read(files: &impl Files, alloc: Global, name: &[u8]) -> Result<Vec<u8>, Fault> {
    let file = open(files, name)?;
    let contents = read_all(alloc, file)?;
    if BYTES.most < contents.len() {
        return Err(Fault::TooLong(BYTES));
    }
    Ok(contents)
}

// Makes a file of this name and these bytes, or says why not. A file that is there already is kept as it is.
pub fn create(files: &impl Files, name: &[u8], bytes: &[u8]) -> io::Result<()> {
    let mut file = OpenOptions::new()
        .write(true)
        .create_new(true)
        .open(files, path_of(name)?)?;
    file.write_all(bytes)?;
    // std loses an error of the close, so what the system has put off is asked for before it.
    file.sync_all()
}
