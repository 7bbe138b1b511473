// The certifying call on lent buffers: grounds 1 to 11, the rounds, the certificate.
#![tactic(auto)]

ghost use Rattle.std.specs.Prelude.{◌≡◌, ◌++◌, ◌*◌, drop, replicate};
ghost use Rattle.buffer.specs.Store.{Holds};
ghost use Rattle.circuit.specs.Tables.{circuit_of};
ghost use Rattle.fact.specs.Cells.{facts};
ghost use Rattle.fact.specs.Certificate as definition;
ghost use Rattle.engine.specs.Ready.{Ready};
ghost use Rattle.call.specs.Call.{lent, left};
ghost use Rattle.certificate.specs.Promise.{room, Certifies};

use crate::round::write_certificate;
use crate::store::FactBytes;
use circuit::checks::check_call;
use circuit::refusal::Refusal;
use circuit::table::Table;
use circuit::width::PowerTable;
use schedule::{Order, clear, schedule};

pub mod evaluate;
pub mod round;
pub mod rule;
pub mod store;

// What is asked a record of the certificate and of the scratch.
const EACH: usize = 8;

const ROOM: usize = 2;

// The certificate of a table whose order stands in the scratch. How many rounds it took.
fn certify_ordered(
    table: &Table,
    scratch: &mut [u16],
    order: Order,
    cells: &mut [u8],
    powers: &PowerTable,
) -> u32
    requires { Ready facts room table.now.bytes.now table.now.records scratch.old order.wires order.registers cells.old }
    ensures value { result ≡ definition.rounds (circuit_of table.now) }
    ensures holds { Holds facts table.now.records (definition.certificate (circuit_of table.now))
        cells.old cells.new }
    ensures scratch_after { scratch.new
        ≡ replicate (table.now.records * room) 0 ++ drop (table.now.records * room) scratch.old }
{
    let rounds = write_certificate::<FactBytes>(table, scratch, order, cells, powers);
    clear(scratch, 0, table.records * ROOM);
    rounds
}

// The certifying call: how many rounds an accepted table took.
pub fn certify(table: &[u8], certificate: &mut [u8], scratch: &mut [u16]) -> Result<u32, Refusal>
    ensures { Certifies
        (lent table.now certificate.old scratch.old)
        (left certificate.new scratch.new) result }
{
    let powers = PowerTable::new();
    check_call(table, certificate.len(), EACH, scratch.len(), ROOM, &powers)?;
    let n = table.len() / 16;
    let checked = Table::new(table, n);
    let order = schedule(&checked, n * ROOM, scratch)?;
    Ok(certify_ordered(&checked, scratch, order, certificate, &powers))
}
