// Passes over a store in a buffer: the values before any other pass, and the wires along their order.
ghost use Rattle.std.specs.Prelude.{◌*◌, ◌≤◌, length};
ghost use Rattle.net.specs.Net as net;
ghost use Rattle.buffer.specs.Store.{Holds, Moves};
ghost use Rattle.circuit.specs.Circuit.{record_of, graph};
ghost use Rattle.circuit.specs.Tables.{circuit_of};
ghost use Rattle.schedule.specs.Schedule.{Ordered};

use crate::rule::Rule;
use crate::store::Store;
use circuit::table::{Table, record_at};

// The values before any other pass; a wire's is not looked at.
pub fn write_initial<S: Store, R: Rule<S>>(table: &Table, cells: &mut [S::Number])
    requires { table.now.records * S.layout.each ≤ length (S.as_numbers cells.old) }
    ensures { Holds S.layout table.now.records (λ v. R.initial (record_of (circuit_of table.now) v))
        (S.as_numbers cells.old) (S.as_numbers cells.new) }
{
    for v in 0..table.records {
        S::store(cells, v, R::initial(record_at(table.bytes, v)));
    }
}

// The wires take their values, one after the other along their order.
pub fn settle<S: Store, R: Rule<S>>(table: &Table, wires: &[u16], rule: &R, cells: &mut [S::Number])
    requires ordered { Ordered (circuit_of table.now) wires.now }
    requires lent { table.now.records * S.layout.each ≤ length (S.as_numbers cells.old) }
    ensures { Moves S.layout table.now.records
        (net.settle (graph (circuit_of table.now)) (R.values (circuit_of table.now)))
        (S.as_numbers cells.old) (S.as_numbers cells.new) }
{
    // A copy, which no store to the cells can reach: through the reference its fields would be read again for each wire.
    let table = *table;
    for &wire in wires {
        let v = usize::from(wire);
        let x = rule.wire(&table, cells, v);
        S::store(cells, v, x);
    }
}
