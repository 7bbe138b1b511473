// The bench call on lent buffers: grounds 1 to 17, power-on, pokes and ticks, the state in the end. The state is one
// number a variable, in the lent output; the order of the wires, and what a tick stages, stand in the lent scratch.
#![tactic(auto)]

ghost use Rattle.std.specs.Prelude.{◌≡◌, ◌++◌, ◌*◌, drop, replicate};
ghost use Rattle.buffer.specs.Kept.{Kept};
ghost use Rattle.buffer.specs.Store.{numbers};
ghost use Rattle.circuit.specs.Tables.{circuit_of};
ghost use Rattle.engine.specs.Ready.{Ready};
ghost use Rattle.call.specs.Call.{lent, left};
ghost use Rattle.machine.specs.Answer.{ListAnswered};
ghost use Rattle.machine.specs.Promise.{room, Benches};

use crate::checks::check_stimuli;
use crate::pass::power_on;
use crate::run::run;
use circuit::checks::check_call;
use circuit::refusal::Refusal;
use circuit::table::Table;
use circuit::width::PowerTable;
use engine::plan::Plan;
use schedule::{Order, clear, schedule};

mod checks;
mod halves;
mod pass;
mod reader;
mod rule;
mod run;
mod stimulus;
mod store;
mod tick;

// What is asked a record of the values and of the scratch.
const EACH: usize = 1;

const ROOM: usize = 4;

// The list on a table whose order stands in the scratch. It is read whole before anything acts. The order is in front,
// and what a tick stages behind it.
fn bench_list(
    table: &Table,
    s: &[u8],
    scratch: &mut [u16],
    order: Order,
    values: &mut [u32],
) -> Result<(), Refusal>
    requires { Ready numbers room table.now.bytes.now table.now.records scratch.old order.wires order.registers values.old }
    ensures kept { Kept (table.now.records * room) scratch.old scratch.new }
    ensures list_answered { ListAnswered (circuit_of table.now) table.now.records s.now
        values.old values.new result }
{
    check_stimuli(table, s)?;
    let (ordered, staging) = scratch.split_at_mut(table.records);
    let plan = Plan::new(table, ordered, order);
    power_on(&plan, values);
    run(&plan, s, staging, values);
    Ok(())
}

// The same, and the scratch part cleared.
fn bench_ordered(
    table: &Table,
    s: &[u8],
    scratch: &mut [u16],
    order: Order,
    values: &mut [u32],
) -> Result<(), Refusal>
    requires { Ready numbers room table.now.bytes.now table.now.records scratch.old order.wires order.registers values.old }
    ensures scratch_after { scratch.new
        ≡ replicate (table.now.records * room) 0 ++ drop (table.now.records * room) scratch.old }
    ensures list_answered { ListAnswered (circuit_of table.now) table.now.records s.now
        values.old values.new result }
{
    let answer = bench_list(table, s, scratch, order, values);
    clear(scratch, 0, table.records * ROOM);
    answer
}

// The bench call.
pub fn bench(
    table: &[u8],
    stimuli: &[u8],
    values: &mut [u32],
    scratch: &mut [u16],
) -> Result<(), Refusal>
    ensures { Benches stimuli.now
        (lent table.now values.old scratch.old)
        (left values.new scratch.new) result }
{
    let powers = PowerTable::new();
    check_call(table, values.len(), EACH, scratch.len(), ROOM, &powers)?;
    let n = table.len() / 16;
    let checked = Table::new(table, n);
    let order = schedule(&checked, n * ROOM, scratch)?;
    bench_ordered(&checked, stimuli, scratch, order, values)
}
