// The checks that a service puts in order: the table's length, the lent buffers, the records.
ghost use Rattle.std.specs.Prelude.{◌≡◌, ◌*◌, ◌≤◌, nat_lt, [], ◌∷◌, length};
ghost use Rattle.circuit.specs.Refusal.{passed, refuse};
ghost use Rattle.circuit.specs.Checks.{check_length, check_output, check_scratch, at_record, check_records, check_call};

use crate::record::{Record, fields_at, read_record};
use crate::refusal::{Check, Ground};
use crate::width::PowerTable;

// Grounds 1 and 2.
pub fn check_length(bytes: usize) -> Check
    ensures { result ≡ check_length bytes }
{
    if 65536 < bytes {
        return Err(Ground::TableTooLong.at(0));
    }
    if bytes % 16 != 0 {
        return Err(Ground::TableNotWhole.at(0));
    }
    Ok(())
}

// A ground on which less is lent of a buffer than is asked.
fn check_lent(reason: Ground, lent: usize, asked: usize) -> Check
    ensures { result ≡ refuse reason 0 (nat_lt lent asked) passed }
{
    if lent < asked {
        return Err(reason.at(0));
    }
    Ok(())
}

// Ground 3.
pub fn check_output(lent: usize, asked: usize) -> Check
    ensures { result ≡ check_output lent asked }
{
    check_lent(Ground::OutputShort, lent, asked)
}

// Ground 4.
pub fn check_scratch(lent: usize, asked: usize) -> Check
    ensures { result ≡ check_scratch lent asked }
{
    check_lent(Ground::ScratchShort, lent, asked)
}

// A record's refusal has the record as its place.
fn at_record(read: Result<Record, Ground>, i: usize) -> Check
    ensures { result ≡ at_record read i }
{
    match read {
        Ok(_) => Ok(()),
        Err(reason) => Err(reason.at(i)),
    }
}

// Grounds 5 to 10 of the first n records.
pub fn check_records(t: &[u8], n: usize, powers: &PowerTable) -> Check
    requires { n * 16 ≤ length t.now }
    ensures { result ≡ check_records t.now n }
{
    for i in 0..n {
        let read = read_record(fields_at(t, i * 16), n, powers);
        let Ok(_) = read else {
            return at_record(read, i);
        };
    }
    Ok(())
}

// Grounds 1 to 10 of a call on a table: what is lent of its output, of which `each` is asked a record, and of its
// scratch, of which `room` is asked a record.
pub fn check_call(
    t: &[u8],
    output: usize,
    each: usize,
    scratch: usize,
    room: usize,
    powers: &PowerTable,
) -> Check
    requires { (each ≤ 256) × (room ≤ 256) }
    ensures { result ≡ check_call t.now (record { lent = output; each = each } ∷ [])
        (record { lent = scratch; each = room }) }
{
    check_length(t.len())?;
    let n = t.len() / 16;
    check_output(output, n * each)?;
    check_scratch(scratch, n * room)?;
    check_records(t, n, powers)
}

// Grounds 1, 2 and 4 to 10 of a call on a table that tries no ground 3: nothing is asked of an output, so that none is
// short.
pub fn check_table(t: &[u8], scratch: usize, room: usize, powers: &PowerTable) -> Check
    requires { room ≤ 256 }
    ensures { result ≡ check_call t.now [] (record { lent = scratch; each = room }) }
{
    check_call(t, 0, 0, scratch, room, powers)
}
