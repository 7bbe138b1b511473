// Grounds 20, 21 and 22, which trimming tries after ground 11.
ghost use Rattle.std.specs.Prelude.{◌≡◌, ◌+◌, ◌*◌, ◌≤◌, ◌<◌, length, get_or};
ghost use Rattle.circuit.specs.Number.{u32_at};
ghost use Rattle.circuit.specs.Reading.{fields_at};
ghost use Rattle.circuit.specs.Tables.{circuit_of};
ghost use Rattle.trim.specs.Order.{check_kept, check_room, bad_fact, check_facts_from, check_certificate, check_trim};

use crate::ALWAYS;
use circuit::number::u32_at;
use circuit::refusal::{Check, Ground};
use circuit::table::{Table, width_at};
use circuit::width::PowerTable;

// Ground 20.
fn check_kept(n: usize, kept: &[u16]) -> Check
    ensures { result ≡ check_kept n kept.now 0 }
{
    match kept.iter().position(|v| n <= usize::from(*v)) {
        Some(i) => Err(Ground::NoSuchKept.at(i)),
        None => Ok(()),
    }
}

// Ground 21.
fn check_room(bytes: usize, trimmed: usize, numbers: usize) -> Check
    ensures { result ≡ check_room bytes trimmed numbers }
{
    if trimmed < bytes || numbers < bytes / 16 {
        return Err(Ground::TrimmedShort.at(0));
    }
    Ok(())
}

// Whether the certificate's bytes are no fact of variable v. The number is read of a fact that is always alone.
fn bad_fact(table: &Table, certificate: &[u8], v: usize, powers: &PowerTable) -> bool
    requires { (table.now.records * 8 ≤ length certificate.now) × (v < table.now.records) }
    ensures { result ≡ bad_fact (fields_at table.now.bytes.now (v * 16)).width (get_or certificate.now (v * 8) 0)
        (u32_at certificate.now (v * 8 + 4)) }
{
    let byte = certificate[v * 8];
    byte == 0
        || 3 < byte
        || (byte == ALWAYS
            && powers
                .width(width_at(table.bytes, v))
                .is_exceeded_by(u32_at(certificate, v * 8 + 4)))
}

// Ground 22 of the facts, where there is one a record.
fn check_facts(table: &Table, certificate: &[u8], powers: &PowerTable) -> Check
    requires { table.now.records * 8 ≤ length certificate.now }
    ensures { result ≡ check_facts_from (circuit_of table.now) certificate.now table.now.records 0 }
{
    for v in 0..table.records {
        if bad_fact(table, certificate, v, powers) {
            return Err(Ground::BadCertificate.at(v));
        }
    }
    Ok(())
}

// Ground 22.
fn check_certificate(table: &Table, certificate: &[u8], powers: &PowerTable) -> Check
    ensures { result ≡ check_certificate (circuit_of table.now) certificate.now }
{
    if certificate.len() != table.records * 8 {
        return Err(Ground::BadCertificate.at(0));
    }
    check_facts(table, certificate, powers)
}

// The three in order, of a call that lends this much for the trimmed table and for the list of old numbers.
#[tactic(auto, using(crate::proofs::Grounds::kept_here, circuit::proofs::Passing::check_stops, circuit::proofs::Passing::check_goes_on))]
pub fn check_trim(
    table: &Table,
    certificate: &[u8],
    kept: &[u16],
    trimmed: usize,
    numbers: usize,
    powers: &PowerTable,
) -> Check
    ensures { result ≡ check_trim (length table.now.bytes.now) (circuit_of table.now) certificate.now
        kept.now trimmed numbers }
{
    check_kept(table.records, kept)?;
    check_room(table.bytes.len(), trimmed, numbers)?;
    check_certificate(table, certificate, powers)
}
