// Plans: checked tables whose variables stand in order.
ghost use Rattle.std.specs.Prelude.{◌≡◌, length};
ghost use Rattle.circuit.specs.Tables.{circuit_of};
ghost use Rattle.schedule.specs.Schedule.{Ordered, register_list};
ghost use Rattle.engine.specs.Facts.{ordered_fact};
ghost use Rattle.engine.specs.Ready.{InOrder};

use circuit::table::Table;
use schedule::Order;

// A checked table, its wires in an order in which each comes after those that it uses, and its registers, ascending.
#[derive(Clone, Copy)]
pub struct Plan<'t, 'o> {
    pub table: Table<'t>,
    pub wires: &'o [u16],
    pub registers: &'o [u16],
    ghost ordered: { Ordered (circuit_of table) wires.now } by { ordered_fact (circuit_of table) wires.now },
    ghost listed: { registers.now ≡ register_list (circuit_of table) },
}

impl<'t, 'o> Plan<'t, 'o> {
    // The plan of a table whose order stands in front of a scratch: the wires, and behind them the registers.
    pub fn new(table: &Table<'t>, scratch: &'o [u16], order: Order) -> Plan<'t, 'o>
        requires { InOrder table.now.bytes.now table.now.records scratch.now order.wires order.registers }
        ensures table { result.table ≡ table.now }
        ensures registers { length result.registers.now ≡ order.registers }
    {
        let (wires, behind) = scratch.split_at(order.wires);
        Plan {
            table: *table,
            wires,
            registers: &behind[..order.registers],
        }
    }
}
