// Trims a table by its certificate: trim_table [--numbers] TABLE CERTIFICATE VARIABLE... Prints the trimmed table's
// bytes, or with --numbers the old numbers of its records, one a line; or why it is refused. Only reading and writing
// is done here; the answer and its text come from the proved library `text`.
// What the programs have alike stands in each: a library may not name std's files, arguments and errors (.ci/run).
#![tactic(auto)]

ghost use Rattle.std.specs.Prelude.{◌<◌, ◌≤◌, length, take, IfOk, IfSome};
ghost use Rattle.std.specs.Io.KnownBytes.{Consumes, IsAtEnd};

use std::env::{Env, FillError};
use std::fs::File;
use std::io;
use std::io::{Error, ErrorKind, Read, Write};
use std::rt::Files;
use text::word::{NumberError, read_number};
use text::{numbers_text, trim_bytes};

// Whether there is an argument i. Argument 0 is the program's name.
fn has_argument(rt: &impl Env, i: usize) -> bool {
    !matches!(rt.arg(i, &mut [0u8; 0]), Err(FillError::NotPresent))
}

// Whether the first argument asks for the old numbers.
fn asks_for_numbers(rt: &impl Env) -> bool {
    let mut word = [0u8; 9];
    match rt.arg(1, &mut word) {
        Ok(n) => word[..n] == b"--numbers"[..],
        Err(_) => false,
    }
}

// Reads an open file into a buffer with room for one byte too many, until that is full or the file ends: one that is
// longer is refused alike. How many bytes of the buffer were read.
// (std's `read_exact` does not tell how much of a shorter one was read.)
#[tactic(auto, using(text::proofs::Reading::read_more))]
fn read_open<R: Read>(file: &mut R, buf: &mut [u8]) -> io::Result<usize>
    ensures within { IfOk result (λ n. n ≤ length buf.new) }
    ensures read { IfOk result (λ n. Consumes (R.remaining file.old) (R.remaining file.new) (take n buf.new)) }
    ensures ended { IfOk result (λ n. n < length buf.new → IsAtEnd (R.remaining file.new)) }
{
    let mut done: usize = 0;
    while done < buf.len() {
        let got = file.read(&mut buf[done..])?;
        if got == 0 {
            return Ok(done);
        }
        done += got;
    }
    Ok(done)
}

// Opens and reads the file at a path.
fn read_path(files: &impl Files, path: &[u8], buf: &mut [u8]) -> io::Result<usize>
    ensures { IfOk result (λ n. n ≤ length buf.new) }
{
    let Ok(path) = str::from_utf8(path) else {
        return Err(Error::from(ErrorKind::InvalidFilename));
    };
    let mut file = File::open(files, path)?;
    read_open(&mut file, buf)
}

// One line on standard error: what failed, and why. The error's number, which is said behind its text, is left out.
fn fail(errors: &impl Print, name: &[u8], why: Error) {
    let mut space = [0u8; 256];
    let mut text = &mut space[..];
    let _ = write!(text, "{why}");
    let said = str::from_utf8(&space).unwrap_or("").trim_end_matches('\0');
    let said = said.split(" (os error ").next().unwrap_or("");
    let _ = print!(errors; "trim: ");
    let _ = errors.write_all(name);
    let _ = println!(errors; ": {said}");
}

// Reads the file that argument i names, or says why it cannot be read. How many bytes of the buffer were read.
fn read_file(
    rt: &(impl Env + Files),
    errors: &impl Print,
    i: usize,
    buf: &mut [u8],
) -> Option<usize>
    ensures { IfSome result (λ n. n ≤ length buf.new) }
{
    let mut space = [0u8; 4096];
    let n = rt.arg(i, &mut space).unwrap_or(0);
    let path = &space[..n];
    match read_path(rt, path, buf) {
        Ok(bytes) => Some(bytes),
        Err(why) => {
            fail(errors, path, why);
            None
        }
    }
}

// One line on standard error: what is wrong with the variable at a place of the list.
fn complain(errors: &impl Print, place: usize, what: &str) {
    let _ = println!(errors; "trim: the variable at place {place} {what}");
}

// The variable that argument i is, or a complaint.
fn read_variable(rt: &impl Env, errors: &impl Print, i: usize, place: usize) -> Option<u16> {
    let mut space = [0u8; 4096];
    let Ok(n) = rt.arg(i, &mut space) else {
        complain(errors, place, "has more than 4096 bytes");
        return None;
    };
    let number = read_number(&space[..n]);
    let fault = match number.and_then(|n| u16::try_from(n).map_err(|_| NumberError::TooWide)) {
        Ok(variable) => return Some(variable),
        Err(NumberError::NoNumber) => "is no number",
        Err(NumberError::TooWide) => "needs more than 16 bits",
    };
    complain(errors, place, fault);
    None
}

// Reads each argument from one on as a kept variable, or says why it cannot be done. How many there are.
fn read_variables(
    rt: &impl Env,
    errors: &impl Print,
    first: usize,
    kept: &mut [u16],
) -> Option<usize>
    ensures { IfSome result (λ n. n ≤ length kept.new) }
{
    let mut place: usize = 0;
    for i in first..usize::MAX {
        if !has_argument(rt, i) {
            break;
        }
        if kept.len() <= place {
            let _ = println!(errors; "trim: more than 65536 variables");
            return None;
        }
        kept[place] = read_variable(rt, errors, i, place)?;
        place += 1;
    }
    Some(place)
}

// Prints an answer.
fn print(output: &impl Print, errors: &impl Print, answer: &[u8]) {
    if output.write_all(answer).is_err() {
        let _ = println!(errors; "trim: standard output cannot be written");
    }
}

// Prints the first n numbers, one a line.
fn print_numbers(output: &impl Print, errors: &impl Print, numbers: &[u16], n: usize)
    requires { (n ≤ 4096) × (n ≤ length numbers.now) }
{
    let mut out = [0u8; 32768];
    let from = numbers_text(numbers, n, &mut out);
    print(output, errors, &out[from..]);
}

// Prints the trimmed table's own bytes, or the old numbers of its records; a refusal's line goes to standard error.
fn print_trimmed(
    output: &impl Print,
    errors: &impl Print,
    table: &[u8],
    certificate: &[u8],
    kept: &[u16],
    in_numbers: bool,
) {
    let mut trimmed = [0u8; 65536];
    let mut numbers = [0u16; 4096];
    let mut scratch = [0u16; 16384];
    let mut line = [0u8; 64];
    let report = trim_bytes(
        table,
        certificate,
        kept,
        &mut trimmed,
        &mut numbers,
        &mut scratch,
        &mut line,
    );
    match report {
        Ok(count) => {
            if in_numbers {
                print_numbers(output, errors, &numbers, count / 16);
            } else {
                print(output, errors, &trimmed[..count]);
            }
        }
        Err(from) => {
            let _ = errors.write_all(&line[from..]);
        }
    }
}

// A table has at most 65,536 bytes and its certificate 32,768, and one more shows that there are too many.
fn main(rt: HostRuntime) {
    let errors = rt.stderr();
    let in_numbers = asks_for_numbers(&rt);
    let first: usize = if in_numbers { 2 } else { 1 };
    if !has_argument(&rt, first + 1) {
        let _ = println!(errors; "usage: trim [--numbers] TABLE CERTIFICATE VARIABLE...");
        return;
    }
    let mut table = [0u8; 65537];
    let Some(t) = read_file(&rt, &errors, first, &mut table) else {
        return;
    };
    let mut certificate = [0u8; 32769];
    let Some(c) = read_file(&rt, &errors, first + 1, &mut certificate) else {
        return;
    };
    let mut kept = [0u16; 65536];
    let Some(k) = read_variables(&rt, &errors, first + 2, &mut kept) else {
        return;
    };
    print_trimmed(
        &rt,
        &errors,
        &table[..t],
        &certificate[..c],
        &kept[..k],
        in_numbers,
    );
}
