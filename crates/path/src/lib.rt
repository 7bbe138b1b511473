// The path call on lent buffers: grounds 1 to 11 and 23, then the shortest row of marked variables from a variable to a
// secret input, of equally short ones the lowest.
#![tactic(auto)]

ghost use Rattle.std.specs.Prelude.{◌≡◌, ◌&&◌, ◌++◌, ℕ, ◌*◌, ◌≤◌, ◌<◌, eqb, ltb, length, get_or, drop, replicate};
ghost use Rattle.buffer.specs.Kept.{KeptOutside};
ghost use Rattle.circuit.specs.Tables.{circuit_of};
ghost use Rattle.fact.specs.declared.Fact.TheVariants.{Marked};
ghost use Rattle.fact.specs.Fact.{fact_byte};
ghost use Rattle.engine.specs.Ready.{Ready};
ghost use Rattle.call.specs.Call.{lent, left};
ghost use Rattle.analysis.specs.Cells.{words};
ghost use Rattle.path.specs.Search.{facts, FactsStand, found};
ghost use Rattle.path.specs.Promise.{room, CallTraces};
ghost use Rattle.path.specs.Tracing.{WritesPath, TracesMarked};

use crate::row::{depth, write_row};
use crate::search::{MARKED, search};
use analysis::analyse;
use circuit::checks::check_call;
use circuit::refusal::{Ground, Refusal};
use circuit::table::Table;
use circuit::width::PowerTable;
use schedule::{Order, clear, schedule};

mod row;
mod search;
mod uses;

// What is asked a record of the row and of the scratch.
const EACH: usize = 1;

const ROOM: usize = 8;

// Whether variable v exists and byte 0 of its fact says that it is marked.
fn is_marked(s: &[u16], n: usize, v: usize) -> bool
    requires { (n * room ≤ length s.now) × (n ≤ 4096) }
    ensures { result ≡ (ltb v n && eqb (get_or s.now (v * 3) 0) (fact_byte Marked)) }
{
    v < n && s[v * 3] == MARKED
}

// Writes the path of a marked variable, whose search begins with nothing found. Its length.
fn write_path(table: &Table, s: &mut [u16], v: usize, row: &mut [u16]) -> usize
    requires facts_stand { FactsStand table.now s.old }
    requires v_marked { (v < table.now.records) × (facts table.now v ≡ Marked)
        × (table.now.records ≤ length row.old) }
    requires none_found { (u : ℕ) → u < table.now.records → found table.now.records s.old u ≡ 0 }
    ensures writes_path { WritesPath (circuit_of table.now) table.now.records v row.old row.new result }
    ensures kept_outside { KeptOutside (table.now.records * 3) (table.now.records * 6) s.old s.new }
{
    let n = table.records;
    let end = search(table, s, v);
    let steps = depth(s, n, end);
    write_row(s, n, end, steps, row);
    steps + 1
}

// The call on a table whose order stands in the scratch, with zeros where the search keeps what it finds.
fn path_ordered(
    table: &Table,
    v: usize,
    row: &mut [u16],
    scratch: &mut [u16],
    order: Order,
    powers: &PowerTable,
) -> Result<usize, Refusal>
    requires ready { Ready words room table.now.bytes.now table.now.records scratch.old
        order.wires order.registers scratch.old }
    requires row_in_bounds { table.now.records ≤ length row.old }
    requires none_found { (u : ℕ) → u < table.now.records → found table.now.records scratch.old u ≡ 0 }
    ensures traces_marked { TracesMarked (circuit_of table.now) table.now.records v row.old row.new result }
    ensures scratch_after { scratch.new
        ≡ replicate (table.now.records * room) 0 ++ drop (table.now.records * room) scratch.old }
{
    let n = table.records;
    let part = n * ROOM;
    analyse(table, scratch, order, powers);
    if !is_marked(scratch, n, v) {
        clear(scratch, 0, part);
        return Err(Ground::NotMarked.at(v));
    }
    let size = write_path(table, scratch, v, row);
    clear(scratch, 0, part);
    Ok(size)
}

// The path call: the length of the row.
pub fn path(
    bytes: &[u8],
    variable: u32,
    row: &mut [u16],
    scratch: &mut [u16],
) -> Result<usize, Refusal>
    ensures { CallTraces variable
        (lent bytes.now row.old scratch.old)
        (left row.new scratch.new) result }
{
    let powers = PowerTable::new();
    check_call(bytes, row.len(), EACH, scratch.len(), ROOM, &powers)?;
    let table = Table::new(bytes, bytes.len() / 16);
    let order = schedule(&table, table.records * ROOM, scratch)?;
    path_ordered(&table, variable as usize, row, scratch, order, &powers)
}
