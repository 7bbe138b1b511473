// Shows how a secret reaches a marked variable: trace_path TABLE VARIABLE. Prints the shortest row of marked variables
// from it to a secret input, or why the table or the variable is refused. Only reading and writing is done here; the
// answer and its text come from the proved library `text`.
// What the programs have alike stands in each: a library may not name std's files, arguments and errors (.ci/run).
#![tactic(auto)]

ghost use Rattle.std.specs.Prelude.{◌<◌, ◌≤◌, length, take, IfOk, IfSome};
ghost use Rattle.std.specs.Io.KnownBytes.{Consumes, IsAtEnd};

use std::env::{Env, FillError};
use std::fs::File;
use std::io;
use std::io::{Error, ErrorKind, Read, Write};
use std::rt::Files;
use text::path_text;
use text::word::{NumberError, read_number};

// Reads an open file into a buffer with room for one byte too many, until that is full or the file ends: one that is
// longer is refused alike. How many bytes of the buffer were read.
// (std's `read_exact` does not tell how much of a shorter one was read.)
#[tactic(auto, using(text::proofs::Reading::read_more))]
fn read_open<R: Read>(file: &mut R, buf: &mut [u8]) -> io::Result<usize>
    ensures within { IfOk result (λ n. n ≤ length buf.new) }
    ensures read { IfOk result (λ n. Consumes (R.remaining file.old) (R.remaining file.new) (take n buf.new)) }
    ensures ended { IfOk result (λ n. n < length buf.new → IsAtEnd (R.remaining file.new)) }
{
    let mut done: usize = 0;
    while done < buf.len() {
        let got = file.read(&mut buf[done..])?;
        if got == 0 {
            return Ok(done);
        }
        done += got;
    }
    Ok(done)
}

// Opens and reads the file at a path.
fn read_path(files: &impl Files, path: &[u8], buf: &mut [u8]) -> io::Result<usize>
    ensures { IfOk result (λ n. n ≤ length buf.new) }
{
    let Ok(path) = str::from_utf8(path) else {
        return Err(Error::from(ErrorKind::InvalidFilename));
    };
    let mut file = File::open(files, path)?;
    read_open(&mut file, buf)
}

// One line on standard error: what failed, and why. The error's number, which is said behind its text, is left out.
fn fail(errors: &impl Print, name: &[u8], why: Error) {
    let mut space = [0u8; 256];
    let mut text = &mut space[..];
    let _ = write!(text, "{why}");
    let said = str::from_utf8(&space).unwrap_or("").trim_end_matches('\0');
    let said = said.split(" (os error ").next().unwrap_or("");
    let _ = print!(errors; "path: ");
    let _ = errors.write_all(name);
    let _ = println!(errors; ": {said}");
}

// Whether there is an argument i. Argument 0 is the program's name.
fn has_argument(rt: &impl Env, i: usize) -> bool {
    !matches!(rt.arg(i, &mut [0u8; 0]), Err(FillError::NotPresent))
}

// Reads the table from the file that argument 1 names, or says why it cannot be read. How many bytes of the buffer were
// read.
fn read_table(rt: &(impl Env + Files), errors: &impl Print, buf: &mut [u8]) -> Option<usize>
    ensures { IfSome result (λ n. n ≤ length buf.new) }
{
    let mut space = [0u8; 4096];
    let n = rt.arg(1, &mut space).unwrap_or(0);
    let path = &space[..n];
    match read_path(rt, path, buf) {
        Ok(bytes) => Some(bytes),
        Err(why) => {
            fail(errors, path, why);
            None
        }
    }
}

// One line on standard error: what is wrong with the variable.
fn complain(errors: &impl Print, what: &str) {
    let _ = println!(errors; "path: the variable {what}");
}

// The variable that argument 2 is, or a complaint.
fn read_variable(rt: &impl Env, errors: &impl Print) -> Option<u32> {
    let mut space = [0u8; 4096];
    let Ok(n) = rt.arg(2, &mut space) else {
        complain(errors, "has more than 4096 bytes");
        return None;
    };
    let fault = match read_number(&space[..n]) {
        Ok(variable) => return Some(variable),
        Err(NumberError::NoNumber) => "is no number",
        Err(NumberError::TooWide) => "needs more than 32 bits",
    };
    complain(errors, fault);
    None
}

// Prints what the path call answers.
fn print_path(output: &impl Print, errors: &impl Print, table: &[u8], variable: u32) {
    let mut row = [0u16; 4096];
    let mut scratch = [0u16; 32768];
    let mut out = [0u8; 131072];
    let from = path_text(table, variable, &mut row, &mut scratch, &mut out);
    if output.write_all(&out[from..]).is_err() {
        let _ = println!(errors; "path: standard output cannot be written");
    }
}

// A table has at most 65,536 bytes, and one more shows that there are too many.
fn main(rt: HostRuntime) {
    let errors = rt.stderr();
    if !has_argument(&rt, 2) || has_argument(&rt, 3) {
        let _ = println!(errors; "usage: path TABLE VARIABLE");
        return;
    }
    let mut table = [0u8; 65537];
    let Some(t) = read_table(&rt, &errors, &mut table) else {
        return;
    };
    let Some(v) = read_variable(&rt, &errors) else {
        return;
    };
    print_path(&rt, &errors, &table[..t], v);
}
