// The calls under C names, for a static library: the answer is packed into one number. Buffers must not overlap.
#![tactic(auto)]

ghost use Rattle.std.specs.Prelude.{◌≡◌, ◌-◌, ◌^◌, min};
ghost use Rattle.call.specs.Call.{lent, left, Promises};
ghost use Rattle.certificate.specs.Promise as certified;
ghost use Rattle.machine.specs.Promise as benched;
ghost use Rattle.bill.specs.Promise as billed;
ghost use Rattle.trim.specs.Promise as trims;
ghost use Rattle.path.specs.Promise as traced;
ghost use Rattle.capi.specs.Packed.{packed, Low, PackedOf, PromisesPacked, CutOf};

use bill::bill;
use certificate::certify;
use circuit::refusal::{Refusal, ground_number};
use machine::bench;
use path::path;
use trim::trim;

// An answer as one number.
fn pack(answer: Result<u64, Refusal>) -> u64
    requires { Low answer }
    ensures { result ≡ packed answer }
{
    match answer {
        Ok(carried) => carried,
        Err(refusal) => { ground_number(refusal.reason) * 4294967296 + refusal.place as u64 }
    }
}

// A refusal with its place as 32 bits tell it.
fn cut(refusal: Refusal) -> Refusal
    ensures { result ≡ record { reason = refusal.reason; place = min refusal.place (2 ^ 32 - 1) } }
{
    refusal.reason.at(refusal.place.min(u32::MAX as usize))
}

// The certifying call: the number of rounds, or ground * 2^32 + place.
#[unsafe(no_mangle)]
pub extern "C" fn lambdac_certify(table: &[u8], certificate: &mut [u8], scratch: &mut [u16]) -> u64
    ensures { PromisesPacked certified.certifying
        (lent table.now certificate.old scratch.old)
        (left certificate.new scratch.new) result }
{
    pack(certify(table, certificate, scratch).map(u64::from))
}

// The bench call: 0, or ground * 2^32 + place.
#[unsafe(no_mangle)]
pub extern "C" fn lambdac_bench(
    table: &[u8],
    stimuli: &[u8],
    values: &mut [u32],
    scratch: &mut [u16],
) -> u64
    ensures { PromisesPacked (benched.benching stimuli.now)
        (lent table.now values.old scratch.old)
        (left values.new scratch.new) result }
{
    pack(bench(table, stimuli, values, scratch).map(|()| 0))
}

// The bill of an order: its cents, or ground * 2^32 + place.
#[unsafe(no_mangle)]
pub extern "C" fn lambdac_bill(sizes: &[u32], shares: &mut [u32]) -> u64
    ensures { PackedOf
        (billed.Bills sizes.now shares.old shares.new) result }
{
    pack(bill(sizes, shares).map(u64::from))
}

// The trimming call: the number of records written, or ground * 2^32 + place.
#[unsafe(no_mangle)]
pub extern "C" fn lambdac_trim(
    table: &[u8],
    certificate: &[u8],
    kept: &[u16],
    trimmed: &mut [u8],
    numbers: &mut [u16],
    scratch: &mut [u16],
) -> u64
    ensures { CutOf (Promises (trims.trimming certificate.now kept.now)
        (trims.lent table.now trimmed.old numbers.old scratch.old)
        (trims.left trimmed.new numbers.new scratch.new)) result }
{
    let answer = trim(table, certificate, kept, trimmed, numbers, scratch);
    pack(answer.map(|count| count as u64).map_err(cut))
}

// The path call: the row's length, or ground * 2^32 + place.
#[unsafe(no_mangle)]
pub extern "C" fn lambdac_path(
    table: &[u8],
    variable: u32,
    row: &mut [u16],
    scratch: &mut [u16],
) -> u64
    ensures { PromisesPacked (traced.tracing variable)
        (lent table.now row.old scratch.old)
        (left row.new scratch.new) result }
{
    pack(path(table, variable, row, scratch).map(|size| size as u64))
}
