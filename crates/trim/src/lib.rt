// The trimming call on lent buffers: grounds 1, 2, 4 to 11 and 20 to 22, then a table with what its certificate calls
// always as constants and without what no kept variable reaches, and the old numbers beside it.
#![tactic(auto)]

ghost use Rattle.std.specs.Prelude.{◌≡◌, ℕ, ◌*◌, ◌/◌, ◌≤◌, ◌<◌, length, get_or, drop, replicate};
ghost use mathlib.Core.List.{◌++◌, flat_map};
ghost use Rattle.circuit.specs.Reading.{record_bytes};
ghost use Rattle.circuit.specs.Tables.{circuit_of};
ghost use Rattle.fact.specs.Fact.{fact_at};
ghost use Rattle.trim.specs.Trimmed as definition;
ghost use Rattle.trim.specs.Ready.{Trimmable};
ghost use Rattle.trim.specs.Promise.{room, lent, left, CallTrims};

use crate::checks::check_trim;
use crate::reach::visit_reached;
use crate::write::{number_survivors, write_survivors};
use circuit::checks::check_table;
use circuit::refusal::Refusal;
use circuit::table::Table;
use circuit::width::PowerTable;
use schedule::{clear, schedule};

mod checks;
mod reach;
mod write;

// Byte 0 of the fact always.
pub const ALWAYS: u8 = 1;

// What is asked a record of the scratch.
const ROOM: usize = 4;

// Writes the trimmed table and the old numbers, in a scratch whose flags are 0. How many records it has.
fn trim_passed(
    table: &Table,
    certificate: &[u8],
    kept: &[u16],
    trimmed: &mut [u8],
    numbers: &mut [u16],
    scratch: &mut [u16],
) -> usize
    requires trimmable { Trimmable (circuit_of table.now) table.now.records certificate.now kept.now
        (length trimmed.old) (length numbers.old) }
    requires room_in_bounds { table.now.records * room ≤ length scratch.old }
    requires none_visited { (v : ℕ) → v < table.now.records → get_or scratch.old v 0 ≡ 0 }
    ensures value { result ≡ length (definition.survivors
        (definition.replaced (circuit_of table.now) (fact_at certificate.now)) kept.now) }
    ensures trimmed_after { trimmed.new ≡ flat_map record_bytes (definition.trimmed
        (definition.replaced (circuit_of table.now) (fact_at certificate.now)) kept.now)
        ++ drop (result * 16) trimmed.old }
    ensures numbers_after { numbers.new ≡ definition.survivors
        (definition.replaced (circuit_of table.now) (fact_at certificate.now)) kept.now
        ++ drop result numbers.old }
    ensures scratch_after { scratch.new
        ≡ replicate (table.now.records * room) 0 ++ drop (table.now.records * room) scratch.old }
{
    visit_reached(table, certificate, kept, scratch);
    let count = number_survivors(table, scratch);
    write_survivors(table, certificate, scratch, trimmed, numbers);
    clear(scratch, 0, table.records * ROOM);
    count
}

// The trimming call: the number of records written, or the refusal. The order is not needed, only that there is no loop.
pub fn trim(
    bytes: &[u8],
    certificate: &[u8],
    kept: &[u16],
    trimmed: &mut [u8],
    numbers: &mut [u16],
    scratch: &mut [u16],
) -> Result<usize, Refusal>
    ensures { CallTrims certificate.now kept.now
        (lent bytes.now trimmed.old numbers.old scratch.old)
        (left trimmed.new numbers.new scratch.new) result }
{
    let powers = PowerTable::new();
    check_table(bytes, scratch.len(), ROOM, &powers)?;
    let table = Table::new(bytes, bytes.len() / 16);
    let part = table.records * ROOM;
    schedule(&table, part, scratch)?;
    clear(scratch, 0, part);
    check_trim(
        &table,
        certificate,
        kept,
        trimmed.len(),
        numbers.len(),
        &powers,
    )?;
    Ok(trim_passed(&table, certificate, kept, trimmed, numbers, scratch))
}
