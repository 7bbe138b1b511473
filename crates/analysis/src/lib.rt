// The certificate's facts worked out in the scratch, for calls that need them and do not issue them: three 16-bit
// numbers a variable in front, with the order of the wires and registers behind them while it is needed.
#![tactic(auto)]

ghost use Rattle.std.specs.Prelude.{◌≡◌, ◌*◌};
ghost use Rattle.buffer.specs.Kept.{Kept};
ghost use Rattle.buffer.specs.Store.{Stands};
ghost use Rattle.circuit.specs.Tables.{circuit_of};
ghost use Rattle.fact.specs.Certificate as definition;
ghost use Rattle.engine.specs.Ready.{Ready};
ghost use Rattle.analysis.specs.Cells.{words, room};

use crate::cell::FactWords;
use certificate::round::write_certificate;
use circuit::table::Table;
use circuit::width::PowerTable;
use schedule::Order;

pub mod cell;
pub mod compare;

// The certificate's facts, of a table whose order stands in front of the scratch. How many rounds it took.
pub fn analyse(table: &Table, s: &mut [u16], order: Order, powers: &PowerTable) -> u32
    requires { Ready words room table.now.bytes.now table.now.records s.old order.wires order.registers s.old }
    ensures value { result ≡ definition.rounds (circuit_of table.now) }
    ensures stands { Stands words 0 table.now.records (definition.certificate (circuit_of table.now)) s.new }
    ensures kept { Kept (table.now.records * 5) s.old s.new }
{
    let n = table.records;
    s.copy_within(..order.wires + order.registers, n * 3);
    let (facts, behind) = s.split_at_mut(n * 3);
    write_certificate::<FactWords>(table, behind, order, facts, powers)
}
