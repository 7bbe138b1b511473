// A tick: the registers' next values are staged, all from the same state, and then written together; the wires follow.
ghost use Rattle.std.specs.Prelude.{◌*◌, ◌≤◌, length};
ghost use Rattle.net.specs.declared.Stimulus.TheVariants.{Tick};
ghost use Rattle.net.specs.Net.{step};
ghost use Rattle.net.specs.Machine as net;
ghost use Rattle.buffer.specs.Kept.{Kept};
ghost use Rattle.buffer.specs.Store.{numbers, Stands, Holds, Moves};
ghost use Rattle.circuit.specs.Circuit.{graph};
ghost use Rattle.circuit.specs.Machine as definition;
ghost use Rattle.engine.specs.Plans.{circuit_of};
ghost use Rattle.machine.specs.State.{state};
ghost use Rattle.machine.specs.Staging.{PlainUnless, halves, staged};

use crate::halves::{load, store};
use crate::pass::register_value;
use crate::rule::Evaluation;
use crate::store::Numbers;
use circuit::table::kind_at;
use engine::pass::settle;
use engine::plan::Plan;

// Whether a register has an enable.
pub fn has_enable(plan: &Plan) -> bool
    ensures { PlainUnless result plan.now.table }
{
    plan.registers
        .iter()
        .any(|&v| kind_at(plan.table.bytes, usize::from(v)) != 4)
}

// Stages the registers' next values.
fn stage(plan: &Plan, values: &[u32], staging: &mut [u16], enables: bool)
    requires lent { plan.now.table.records ≤ length values.now }
    requires room { length plan.now.registers.now * 2 ≤ length staging.old }
    requires plain_unless { PlainUnless enables plan.now.table }
    ensures { Holds halves (length plan.now.registers.now) (staged (circuit_of plan.now) (state values.now))
        staging.old staging.new }
{
    for (j, &register) in plan.registers.iter().enumerate() {
        let x = register_value(&plan.table, values, usize::from(register), enables);
        store(staging, j * 2, x);
    }
}

// Writes the staged values, all together.
fn commit(plan: &Plan, staging: &[u16], values: &mut [u32])
    requires lent { plan.now.table.records ≤ length values.old }
    requires room { length plan.now.registers.now * 2 ≤ length staging.now }
    requires stands { Stands halves 0 (length plan.now.registers.now) (staged (circuit_of plan.now) (state values.old))
        staging.now }
    ensures { Moves numbers plan.now.table.records (step (graph (circuit_of plan.now))
        (definition.values (circuit_of plan.now)))
        values.old values.new }
{
    for (k, &register) in plan.registers.iter().enumerate() {
        let v = usize::from(register);
        values[v] = load(staging, k * 2);
    }
}

// A tick.
pub fn tick(plan: &Plan, staging: &mut [u16], values: &mut [u32], enables: bool)
    requires lent { plan.now.table.records ≤ length values.old }
    requires room { length plan.now.registers.now * 2 ≤ length staging.old }
    requires plain_unless { PlainUnless enables plan.now.table }
    ensures kept { Kept (length plan.now.registers.now * 2) staging.old staging.new }
    ensures moves { Moves numbers plan.now.table.records (net.act (graph (circuit_of plan.now))
        (definition.values (circuit_of plan.now)) Tick)
        values.old values.new }
{
    stage(plan, values, staging, enables);
    commit(plan, staging, values);
    settle::<Numbers, Evaluation>(&plan.table, plan.wires, &Evaluation, values);
}
