// Bills the order whose sizes are the arguments: bill_order SIZE... Prints the bill and each size's share, or why the
// order is refused. Only reading and writing is done here; the answer and its text come from the proved library `text`.
// What the programs have alike stands in each: a library may not name std's files, arguments and errors (.ci/run).
#![tactic(auto)]

ghost use Rattle.std.specs.Prelude.{◌≡◌, ◌+◌, ◌≤◌, min, length, set, IfSome};

use std::env::{Env, FillError};
use text::bill_text;
use text::word::{NumberError, read_number};

// One line on standard error: what is wrong with size i.
fn complain(errors: &impl Print, i: usize, what: &str) {
    let _ = println!(errors; "bill: the size at place {i} {what}");
}

// Whether there is an argument i. Argument 0 is the program's name.
fn has_argument(rt: &impl Env, i: usize) -> bool {
    !matches!(rt.arg(i, &mut [0u8; 0]), Err(FillError::NotPresent))
}

// The size that argument i is, or a complaint. Argument 0 is the program's name.
fn read_size(rt: &impl Env, errors: &impl Print, i: usize) -> Option<u32>
    requires { 1 ≤ i }
{
    let mut space = [0u8; 4096];
    let Ok(n) = rt.arg(i, &mut space) else {
        complain(errors, i - 1, "has more than 4096 bytes");
        return None;
    };
    let fault = match read_number(&space[..n]) {
        Ok(size) => return Some(size),
        Err(NumberError::NoNumber) => "is no number",
        Err(NumberError::TooWide) => "needs more than 32 bits",
    };
    complain(errors, i - 1, fault);
    None
}

// Keeps a size behind the first `kept`, where there is room. How many are kept then.
fn keep(sizes: &mut [u32], kept: usize, size: u32) -> usize
    requires { kept ≤ length sizes.old }
    ensures value { result ≡ min (kept + 1) (length sizes.old) }
    ensures sizes_after { sizes.new ≡ set sizes.old kept size }
{
    if kept < sizes.len() {
        sizes[kept] = size;
        return kept + 1;
    }
    kept
}

// Reads every word, and keeps as many sizes as there is room for. How many are kept; or none, where a word is no size.
fn read_sizes(rt: &impl Env, errors: &impl Print, sizes: &mut [u32]) -> Option<usize>
    ensures { IfSome result (λ n. n ≤ length sizes.new) }
{
    let mut kept: usize = 0;
    for i in 1..usize::MAX {
        if !has_argument(rt, i) {
            break;
        }
        let size = read_size(rt, errors, i)?;
        kept = keep(sizes, kept, size);
    }
    Some(kept)
}

// Prints what the call answers.
fn print_bill(output: &impl Print, errors: &impl Print, sizes: &[u32]) {
    let mut shares = [0u32; 65];
    let mut out = [0u8; 2048];
    let from = bill_text(sizes, &mut shares, &mut out);
    if output.write_all(&out[from..]).is_err() {
        let _ = println!(errors; "bill: standard output cannot be written");
    }
}

// An order has at most 64 sizes, and one more shows that there are too many.
fn main(rt: HostRuntime) {
    let errors = rt.stderr();
    let mut sizes = [0u32; 65];
    let Some(n) = read_sizes(&rt, &errors, &mut sizes) else {
        return;
    };
    print_bill(&rt, &errors, &sizes[..n]);
}
