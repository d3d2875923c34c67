// What the programs have of the system: their arguments, files by name, and what the system has against one. Nothing here allocates.
#![tactic(auto)]

ghost use Rattle.io.specs.Counts.{IsPrefixLen};
ghost use Rattle.std.specs.Io.{ReadsAtMost};

use std::env::FillError;
use std::fs::File;
use std::io::{Cursor, Error, Read, Result, Write};
use std::rt::{Env, Files};
use std::str;

// The system's own numbers of what it says of an argument that is missing, and of one that is longer than its buffer.
const INVALID: i32 = 22;

const TOO_LONG: i32 = 36;

// And of bytes that are no text.
const NO_TEXT: i32 = 84;

// ---- arguments

// How many arguments the program was started with, its own name among them.
pub fn arg_count(rt: &impl Env) -> usize {
    for i in 0..usize::MAX {
        if let Err(FillError::NotPresent) = rt.arg(i, &mut []) {
            return i;
        }
    }
    usize::MAX
}

// Puts argument i at the start of a buffer and answers its length; an error where it is missing or longer than the buffer.
pub fn argument(rt: &impl Env, i: usize, bytes: &mut [u8]) -> Result<usize>
    ensures { ReadsAtMost result bytes.new }
{
    rt.arg(i, bytes).map_err(|e| {
        Error::from_raw_os_error(match e {
            FillError::NotPresent => INVALID,
            FillError::TooLong => TOO_LONG,
        })
    })
}

// The same, and 0 where it is missing or longer than the buffer: to the programs that is an empty argument, and no other.
pub fn arg(rt: &impl Env, i: usize, bytes: &mut [u8]) -> usize
    ensures { IsPrefixLen result bytes.new }
{
    argument(rt, i, bytes).unwrap_or(0)
}

// ---- files

// The name of a file as text. The library takes no other name.
fn path(name: &[u8]) -> Result<&str> {
    str::from_utf8(name).map_err(|_| Error::from_raw_os_error(NO_TEXT))
}

// Opens the file of this name for reading.
pub fn open_read<R: Files>(rt: &R, name: &[u8]) -> Result<R::File> {
    File::open(rt, path(name)?)
}

// Opens the file of this name for writing, and empties it or creates it.
pub fn open_overwrite<R: Files>(rt: &R, name: &[u8]) -> Result<R::File> {
    File::create(rt, path(name)?)
}

// Reads until the buffer is full, the input ends or a read fails, and answers how many bytes it put at the start of the buffer.
pub fn read_full<F: Read>(file: &mut F, bytes: &mut [u8]) -> usize
    ensures { IsPrefixLen result bytes.new }
{
    let mut done: usize = 0;
    while done < bytes.len() {
        match file.read(&mut bytes[done..]) {
            Ok(n) if 0 < n => done += n,
            _ => break,
        }
    }
    done
}

// Writes all bytes, or stops at the first write that takes nothing or fails. The library's own goes on after a signal and has another sentence for nothing taken.
pub fn write_all<F: Write>(file: &mut F, bytes: &[u8]) -> Result<()> {
    let mut done: usize = 0;
    while done < bytes.len() {
        let n = file.write(&bytes[done..])?;
        if n == 0 {
            return Err(Error::from_raw_os_error(0));
        }
        done += n;
    }
    Ok(())
}

// ---- failures

// The standard error.
const STANDARD_ERROR: i32 = 2;

// What the system says in the text of an error, which the library ends with the error's number in brackets.
fn said(text: &[u8]) -> &[u8] {
    match text.iter().rposition(|b| *b == b'(') {
        Some(at) if 0 < at => &text[..at - 1],
        _ => text,
    }
}

// Writes a line to standard error: what failed, as the caller names it, a colon and what the system says.
pub fn fail(what: &[u8], e: &Error) {
    let mut text = Cursor::new([0u8; 256]);
    let _ = write!(text, "{e}");
    let n = text.position() as usize;
    let bytes = text.into_inner();
    io::write_all(STANDARD_ERROR, what);
    io::write_all(STANDARD_ERROR, b": ");
    io::write_all(STANDARD_ERROR, said(&bytes[..n.min(bytes.len())]));
    io::write_all(STANDARD_ERROR, b"\n");
}
