// What a record gives, a wire's and a register's, and the state at power-on.
ghost use Rattle.std.specs.Prelude.{◌≡◌, ◌≤◌, length};
ghost use Rattle.net.specs.Net as net;
ghost use Rattle.buffer.specs.Store.{numbers, Holds};
ghost use Rattle.circuit.specs.Machine as definition;
ghost use Rattle.engine.specs.Plans as plans;
ghost use Rattle.circuit.specs.Tables.{circuit_of};
ghost use Rattle.engine.specs.Ready.{Evaluable};
ghost use Rattle.machine.specs.State.{state};
ghost use Rattle.machine.specs.Staging.{PlainUnless};

use crate::rule::Evaluation;
use crate::store::Numbers;
use circuit::operator::{evaluate, multiplex, operator_code};
use circuit::record::operator_of;
use circuit::table::{Table, a_at, b_at, c_at, code_at, kind_at, value_at, width_at};
use circuit::width::Width;
use engine::pass::{settle, write_initial};
use engine::plan::Plan;

// What wire v's record gives. It is no input and no register, so what is no constant and no operator is a multiplexer.
// The code goes through its operator, which bounds it: the jump on it then has one case less.
pub fn wire_value(table: &Table, values: &[u32], v: usize) -> u32
    requires { Evaluable numbers net.wire table.now.bytes.now table.now.records values.now v }
    ensures { result ≡ definition.values (circuit_of table.now) (state values.now) v }
{
    let t = table.bytes;
    let kind = kind_at(t, v);
    match kind {
        1 => value_at(t, v),
        2 => {
            let code = operator_code(operator_of(code_at(t, v)));
            let width = Width::new(width_at(t, v));
            evaluate(code, width, values[a_at(t, v)], values[b_at(t, v)])
        }
        _ => {
            multiplex(
                Width::new(width_at(t, v)),
                values[a_at(t, v)],
                values[b_at(t, v)],
                values[c_at(t, v)],
            )
        }
    }
}

// What register v's record gives. One that is not of kind 4 has an enable. Where the table has none, no kind is read:
// the loop over registers is then compiled for plain ones alone.
pub fn register_value(table: &Table, values: &[u32], v: usize, enables: bool) -> u32
    requires evaluable { Evaluable numbers net.register table.now.bytes.now table.now.records values.now v }
    requires plain_unless { PlainUnless enables table.now }
    ensures { result ≡ definition.values (circuit_of table.now) (state values.now) v }
{
    let t = table.bytes;
    let taken = Width::new(width_at(t, v)).remainder(values[a_at(t, v)]);
    if !enables {
        return taken;
    }
    if kind_at(t, v) == 4 {
        return taken;
    }
    if values[b_at(t, v)] == 0 {
        return values[v];
    }
    taken
}

// The state at power-on.
pub fn power_on(plan: &Plan, values: &mut [u32])
    requires { plan.now.table.records ≤ length values.old }
    ensures { Holds numbers plan.now.table.records (definition.power_on (plans.circuit_of plan.now))
        values.old values.new }
{
    write_initial::<Numbers, Evaluation>(&plan.table, values);
    settle::<Numbers, Evaluation>(&plan.table, plan.wires, &Evaluation, values);
}
