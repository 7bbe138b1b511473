// Reads a table from standard input and prints its certificate as text, or with --bytes as 8 bytes a variable; or why
// it is refused. Only reading and writing is done here; the answer and its text come from the proved library `text`.
// What the programs have alike stands in each: a library may not name std's files, arguments and errors (.ci/run).
#![tactic(auto)]

ghost use Rattle.std.specs.Prelude.{◌<◌, ◌≤◌, length, take, IfOk};
ghost use Rattle.std.specs.Io.KnownBytes.{Consumes, IsAtEnd};

use std::env::{Env, FillError};
use std::io;
use std::io::Read;
use text::{certify_bytes, certify_text};

// Reads until the buffer is full or the input ends. How many bytes of the buffer were read.
// (std's `read_exact` does not tell how much of a shorter one was read.)
#[tactic(auto, using(text::proofs::Reading::read_more))]
fn read_full<R: Read>(input: &mut R, buf: &mut [u8]) -> io::Result<usize>
    ensures within { IfOk result (λ n. n ≤ length buf.new) }
    ensures read { IfOk result (λ n. Consumes (R.remaining input.old) (R.remaining input.new) (take n buf.new)) }
    ensures ended { IfOk result (λ n. n < length buf.new → IsAtEnd (R.remaining input.new)) }
{
    let mut done: usize = 0;
    while done < buf.len() {
        let got = input.read(&mut buf[done..])?;
        if got == 0 {
            return Ok(done);
        }
        done += got;
    }
    Ok(done)
}

// Whether there is an argument i. Argument 0 is the program's name.
fn has_argument(rt: &impl Env, i: usize) -> bool {
    !matches!(rt.arg(i, &mut [0u8; 0]), Err(FillError::NotPresent))
}

// Whether the first argument asks for the certificate's own bytes.
fn asks_for_bytes(rt: &impl Env) -> bool {
    let mut word = [0u8; 8];
    match rt.arg(1, &mut word) {
        Ok(n) => word[..n] == b"--bytes"[..],
        Err(_) => false,
    }
}

// Prints an answer.
fn print(output: &impl Print, errors: &impl Print, answer: &[u8]) {
    if output.write_all(answer).is_err() {
        let _ = println!(errors; "certify: standard output cannot be written");
    }
}

// Prints what the certifying call answers.
fn print_text(output: &impl Print, errors: &impl Print, table: &[u8]) {
    let mut certificate = [0u8; 32768];
    let mut scratch = [0u16; 8192];
    let mut out = [0u8; 131072];
    let from = certify_text(table, &mut certificate, &mut scratch, &mut out);
    print(output, errors, &out[from..]);
}

// Prints the certificate's own bytes; a refusal's line goes to standard error.
fn print_bytes(output: &impl Print, errors: &impl Print, table: &[u8]) {
    let mut certificate = [0u8; 32768];
    let mut scratch = [0u16; 8192];
    let mut line = [0u8; 64];
    match certify_bytes(table, &mut certificate, &mut scratch, &mut line) {
        Ok(count) => print(output, errors, &certificate[..count]),
        Err(from) => {
            let _ = errors.write_all(&line[from..]);
        }
    }
}

// A table has at most 65,536 bytes, and one more shows that there are too many.
fn main(rt: HostRuntime) {
    let errors = rt.stderr();
    let bytes = asks_for_bytes(&rt);
    let known = if bytes { 2 } else { 1 };
    if has_argument(&rt, known) {
        let _ = println!(errors; "usage: certify [--bytes] < TABLE");
        return;
    }
    let mut table = [0u8; 65537];
    let Ok(got) = read_full(&mut rt.stdin(), &mut table) else {
        let _ = println!(errors; "certify: standard input cannot be read");
        return;
    };
    if bytes {
        print_bytes(&rt, &errors, &table[..got]);
    } else {
        print_text(&rt, &errors, &table[..got]);
    }
}
