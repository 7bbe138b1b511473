// Runs the stimuli of one file on the table of another: bench TABLE STIMULI. Prints the state in the end, or why the
// table or the list is refused. Only reading and writing is done here; the answer and its text come from the proved
// library `text`.
// What the programs have alike stands in each: a library may not name std's files, arguments and errors (.ci/run).
#![tactic(auto)]

ghost use Rattle.std.specs.Prelude.{◌<◌, ◌≤◌, length, take, IfOk, IfSome};
ghost use Rattle.std.specs.Io.KnownBytes.{Consumes, IsAtEnd};

use std::env::{Env, FillError};
use std::fs::File;
use std::io;
use std::io::{Error, ErrorKind, Read, Write};
use std::rt::Files;
use text::bench_text;

// One read of what a buffer does not hold any more: how many bytes there were, and 0 at the end.
fn read_piece(file: &mut impl Read) -> io::Result<usize> {
    let mut space = [0u8; 65536];
    file.read(&mut space)
}

// Reads a file to its end: its length's remainder by 8. A proved loop has to end, and nothing says that a file does: so
// it counts its turns.
fn read_rest(file: &mut impl Read) -> io::Result<usize>
    ensures { IfOk result (λ n. n ≤ 7) }
{
    let mut rest: usize = 0;
    for _ in 0..u64::MAX {
        let bytes = read_piece(file)?;
        if bytes == 0 {
            return Ok(rest);
        }
        rest = (rest + bytes % 8) % 8;
    }
    Err(Error::from(ErrorKind::FileTooLarge))
}

// Reads until the buffer is full or the file ends. How many bytes of the buffer were read.
// (std's `read_exact` does not tell how much of a shorter one was read.)
#[tactic(auto, using(text::proofs::Reading::read_more))]
fn read_full<R: Read>(file: &mut R, buf: &mut [u8]) -> io::Result<usize>
    ensures within { IfOk result (λ n. n ≤ length buf.new) }
    ensures read { IfOk result (λ n. Consumes (R.remaining file.old) (R.remaining file.new) (take n buf.new)) }
    ensures ended { IfOk result (λ n. n < length buf.new → IsAtEnd (R.remaining file.new)) }
{
    let mut done: usize = 0;
    while done < buf.len() {
        let got = file.read(&mut buf[done..])?;
        if got == 0 {
            return Ok(done);
        }
        done += got;
    }
    Ok(done)
}

// Reads a file into a buffer of a multiple of 8 bytes. Of one that does not end in it only the length's remainder by 8
// counts, and the number answered has the same.
fn read_open(file: &mut impl Read, buf: &mut [u8]) -> io::Result<usize>
    requires { 8 ≤ length buf.old }
    ensures { IfOk result (λ n. n ≤ length buf.new) }
{
    let got = read_full(file, buf)?;
    if got < buf.len() {
        return Ok(got);
    }
    let past = read_rest(file)?;
    Ok(buf.len() - 8 + past)
}

// Opens and reads the file at a path.
fn read_path(files: &impl Files, path: &[u8], buf: &mut [u8]) -> io::Result<usize>
    requires { 8 ≤ length buf.old }
    ensures { IfOk result (λ n. n ≤ length buf.new) }
{
    let Ok(path) = str::from_utf8(path) else {
        return Err(Error::from(ErrorKind::InvalidFilename));
    };
    let mut file = File::open(files, path)?;
    read_open(&mut file, buf)
}

// One line on standard error: what failed, and why. The error's number, which is said behind its text, is left out.
fn fail(errors: &impl Print, name: &[u8], why: Error) {
    let mut space = [0u8; 256];
    let mut text = &mut space[..];
    let _ = write!(text, "{why}");
    let said = str::from_utf8(&space).unwrap_or("").trim_end_matches('\0');
    let said = said.split(" (os error ").next().unwrap_or("");
    let _ = print!(errors; "bench: ");
    let _ = errors.write_all(name);
    let _ = println!(errors; ": {said}");
}

// Whether there is an argument i. Argument 0 is the program's name.
fn has_argument(rt: &impl Env, i: usize) -> bool {
    !matches!(rt.arg(i, &mut [0u8; 0]), Err(FillError::NotPresent))
}

// Reads the file that argument i names, or says why it cannot be read. How many bytes of the buffer were read.
fn read_file(
    rt: &(impl Env + Files),
    errors: &impl Print,
    i: usize,
    buf: &mut [u8],
) -> Option<usize>
    requires { 8 ≤ length buf.old }
    ensures { IfSome result (λ n. n ≤ length buf.new) }
{
    let mut space = [0u8; 4096];
    let n = rt.arg(i, &mut space).unwrap_or(0);
    let path = &space[..n];
    match read_path(rt, path, buf) {
        Ok(bytes) => Some(bytes),
        Err(why) => {
            fail(errors, path, why);
            None
        }
    }
}

// Prints what the bench call answers.
fn print_run(output: &impl Print, errors: &impl Print, table: &[u8], stimuli: &[u8]) {
    let mut values = [0u32; 4096];
    let mut scratch = [0u16; 16384];
    let mut out = [0u8; 131072];
    let from = bench_text(table, stimuli, &mut values, &mut scratch, &mut out);
    if output.write_all(&out[from..]).is_err() {
        let _ = println!(errors; "bench: standard output cannot be written");
    }
}

// The buffers have room for one record, or one stimulus, too many and 8 bytes more.
fn main(rt: HostRuntime) {
    let errors = rt.stderr();
    if !has_argument(&rt, 2) || has_argument(&rt, 3) {
        let _ = println!(errors; "usage: bench TABLE STIMULI");
        return;
    }
    let mut table = [0u8; 65560];
    let Some(t) = read_file(&rt, &errors, 1, &mut table) else {
        return;
    };
    let mut stimuli = [0u8; 32784];
    let Some(s) = read_file(&rt, &errors, 2, &mut stimuli) else {
        return;
    };
    print_run(&rt, &errors, &table[..t], &stimuli[..s]);
}
