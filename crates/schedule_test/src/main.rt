// Reads tables from standard input, checks and schedules each, and prints one line a table. A table is headed by two
// bytes, the number of its records.
#![tactic(auto)]

ghost use Rattle.std.specs.Prelude.{◌*◌, ◌≤◌, length};

use crate::print::{print_refusal, print_schedule};
use circuit::checks::{check_length, check_records};
use circuit::table::Table;
use circuit::width::PowerTable;
use schedule::schedule;
use std::io::Read;

mod print;

// Passes over n records of the input.
fn skip_records(input: &mut impl Read, n: usize) {
    let mut bytes = [0u8; 16];
    for _ in 0..n {
        let _ = input.read_exact(&mut bytes);
    }
}

// The number of the next table's records, which heads it. An input that cannot be read has ended.
fn read_header(input: &mut impl Read) -> Option<u16> {
    let mut bytes = [0u8; 2];
    input.read_exact(&mut bytes).ok()?;
    Some(u16::from_le_bytes(bytes))
}

// Checks and schedules the n records of a table, and prints its line.
fn report(output: &impl Print, t: &[u8], n: usize)
    requires { (n ≤ 4096) × (n * 16 ≤ length t.now) }
{
    let powers = PowerTable::new();
    if let Err(refusal) = check_records(t, n, &powers) {
        print_refusal(output, refusal);
        return;
    }
    let mut scratch = [0u16; 8192];
    let scheduled = schedule(&Table::new(t, n), 2 * n, &mut scratch);
    print_schedule(output, scheduled, &scratch);
}

// Reads the n records of a table and prints its line. Whether the input has them all.
fn read_and_report(input: &mut impl Read, output: &impl Print, n: usize) -> bool
    requires { n ≤ 4096 }
{
    let mut t = [0u8; 65536];
    let whole = input.read_exact(&mut t[..n * 16]).is_ok();
    if whole {
        report(output, &t, n);
    }
    whole
}

// One turn: reads one table and prints its line. Whether there was one.
fn turn(input: &mut impl Read, output: &impl Print) -> bool {
    let Some(records) = read_header(input) else {
        return false;
    };
    let n = usize::from(records);
    if let Err(refusal) = check_length(n * 16) {
        skip_records(input, n);
        print_refusal(output, refusal);
        return true;
    }
    read_and_report(input, output, n)
}

// A proved loop has to end, and nothing says that the input does: so it counts its turns.
fn main(rt: HostRuntime) {
    let mut input = rt.stdin();
    for _ in 0..10000 {
        if !turn(&mut input, &rt) {
            return;
        }
    }
}
