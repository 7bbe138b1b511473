// The schedule of a circuit: its wires in an order in which each stands after the wires that it uses, or a loop. In
// linear time, without recursion, in lent memory.
#![tactic(auto)]

ghost use Rattle.std.specs.Prelude.{◌≡◌, ◌+◌, ◌-◌, ◌≤◌, ◌<◌, length, get_or};
ghost use Rattle.circuit.specs.Tables.{circuit_of};
ghost use Rattle.schedule.specs.Schedule.{register_list, Scheduled};
ghost use Rattle.buffer.specs.Kept.{Filled};

use crate::rotate::show_loop;
use crate::walk::visit_all;
use circuit::refusal::{Ground, Refusal};
use circuit::table::{Table, is_register};

mod rotate;
mod walk;

// How many wires and how many registers stand in an order.
#[derive(Clone, Copy)]
pub struct Order {
    pub wires: usize,
    pub registers: usize,
}

// Zeros from one place up to another.
pub fn clear(s: &mut [u16], from: usize, to: usize)
    requires { (from ≤ to) × (to ≤ length s.old) }
    ensures { Filled from (to - from) (λ _. 0) s.old s.new }
{
    s[from..to].fill(0);
}

// Writes the registers behind the wires, ascending. How many there are.
fn add_registers(table: Table, s: &mut [u16], wires: usize) -> usize
    requires { (table.records ≤ length s.old)
        × (wires + length (register_list (circuit_of table)) ≤ table.records) }
    ensures value { result ≡ length (register_list (circuit_of table.entry)) }
    ensures filled { Filled wires result (λ i. get_or (register_list (circuit_of table.entry)) i 0)
        s.old s.new }
{
    let mut count = 0;
    for v in 0..table.records {
        if is_register(table.bytes, v) {
            s[wires + count] = v as u16;
            count += 1;
        }
    }
    count
}

// In the lent scratch: the wires in an order in which each stands after the wires that it uses, and then the
// registers, ascending; or a loop, its lowest variable first, of which the refusal's place is the length. The rest of
// the part is 0.
pub fn schedule(table: &Table, part: usize, scratch: &mut [u16]) -> Result<Order, Refusal>
    requires { (table.now.records + table.now.records ≤ part) × (part ≤ length scratch.old) }
    ensures { Scheduled (circuit_of table.now) part scratch.old scratch.new result }
{
    let n = table.records;
    clear(scratch, n, n + n);
    match visit_all(*table, scratch) {
        Ok(wires) => {
            let registers = add_registers(*table, scratch, wires);
            clear(scratch, wires + registers, part);
            Ok(Order { wires, registers })
        }
        Err(closing) => {
            let size = show_loop(scratch, n, closing.top, closing.used);
            clear(scratch, size, part);
            Err(Ground::Loop.at(size))
        }
    }
}
