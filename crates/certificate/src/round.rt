// A round's registers: their next facts are staged, all from the same store, and then written together. The rounds, and
// with them the whole certificate of a plan.
ghost use Rattle.std.specs.Prelude.{◌≡◌, not, ◌+◌, ◌*◌, ◌≤◌, length};
ghost use Rattle.net.specs.Tests.{all_below};
ghost use Rattle.net.specs.Net.{step};
ghost use Rattle.buffer.specs.Kept.{Kept};
ghost use Rattle.buffer.specs.Store.{numbers, Wrote, Stands, Holds, Moves};
ghost use Rattle.circuit.specs.Reading.{fields_at};
ghost use Rattle.circuit.specs.Circuit.{graph};
ghost use Rattle.circuit.specs.Tables as tables;
ghost use Rattle.fact.specs.Fact.{same, fact_of};
ghost use Rattle.fact.specs.Rule as definition;
ghost use Rattle.fact.specs.Certificate.{initial_store, rounds, certificate};
ghost use Rattle.engine.specs.Plans.{circuit_of};
ghost use Rattle.engine.specs.Ready.{Ready};
ghost use Rattle.engine.specs.Registers.{stays_at};
ghost use Rattle.engine.specs.Rules.{read_off};
ghost use Rattle.certificate.specs.Promise.{room};
ghost use Rattle.certificate.specs.Staging.{staged};

use crate::evaluate::register_fact;
use crate::rule::FactRule;
use circuit::table::{Table, value_at};
use circuit::width::PowerTable;
use engine::pass::{settle, write_initial};
use engine::plan::Plan;
use engine::store::Store;
use fact::Fact;
use fact::cell::byte;
use schedule::Order;

// Stages the registers' facts. Whether one of them changes.
pub fn stage<S: Store<Value = Fact>>(
    plan: &Plan,
    rule: &FactRule,
    cells: &[S::Number],
    staging: &mut [u16],
) -> bool
    requires lent { plan.now.table.records * S.layout.each ≤ length (S.as_numbers cells.now) }
    requires room { length plan.now.registers.now ≤ length staging.old }
    ensures holds { Holds numbers (length plan.now.registers.now)
        (staged (circuit_of plan.now) (read_off S.layout (S.as_numbers cells.now))) staging.old staging.new }
    ensures value { result ≡ not (all_below
        (stays_at (circuit_of plan.now) (definition.rule (circuit_of plan.now)) same
        (read_off S.layout (S.as_numbers cells.now))) (length plan.now.registers.now)) }
{
    let mut changed = false;
    for (j, &register) in plan.registers.iter().enumerate() {
        let v = usize::from(register);
        let fact = register_fact::<S>(&plan.table, rule, cells, v);
        staging[j] = u16::from(byte(fact));
        changed |= fact != S::load(cells, v);
    }
    changed
}

// Writes the fact of register v's staged byte: a register that is always one number is always its power-on value.
fn write_staged<S: Store<Value = Fact>>(t: &[u8], v: usize, byte: u16, cells: &mut [S::Number])
    requires record { v * 16 + 16 ≤ length t.now }
    requires lent { v * S.layout.each + S.layout.each ≤ length (S.as_numbers cells.old) }
    ensures { Wrote S.layout (S.as_numbers cells.old) (S.as_numbers cells.new) (v * S.layout.each)
        (fact_of byte (fields_at t.now (v * 16)).value) }
{
    // 0 and what lies past 2 have an arm each: with one for both, path's rounds took 1.3 to 1.5 of the time.
    match byte {
        0 => S::store(cells, v, Fact::MARKED),
        1 => S::store(cells, v, Fact::Always(value_at(t, v))),
        2 => S::store(cells, v, Fact::Open),
        3..=65535 => S::store(cells, v, Fact::MARKED),
    }
}

// Writes the staged facts, all together.
pub fn commit<S: Store<Value = Fact>>(plan: &Plan, staging: &[u16], cells: &mut [S::Number])
    requires lent { plan.now.table.records * S.layout.each ≤ length (S.as_numbers cells.old) }
    requires room { length plan.now.registers.now ≤ length staging.now }
    requires stands { Stands numbers 0 (length plan.now.registers.now)
        (staged (circuit_of plan.now) (read_off S.layout (S.as_numbers cells.old))) staging.now }
    ensures { Moves S.layout plan.now.table.records
        (step (graph (circuit_of plan.now)) (definition.rule (circuit_of plan.now)))
        (S.as_numbers cells.old) (S.as_numbers cells.new) }
{
    for (j, &register) in plan.registers.iter().enumerate() {
        write_staged::<S>(plan.table.bytes, usize::from(register), staging[j], cells);
    }
}

// The rounds, until one changes no register. How many come before that one.
pub fn run_rounds<S: Store<Value = Fact>>(
    plan: &Plan,
    rule: &FactRule,
    staging: &mut [u16],
    cells: &mut [S::Number],
) -> u32
    requires lent { plan.now.table.records * S.layout.each ≤ length (S.as_numbers cells.old) }
    requires room { length plan.now.registers.now ≤ length staging.old }
    requires stands { Stands S.layout 0 plan.now.table.records (initial_store (circuit_of plan.now)) (S.as_numbers cells.old) }
    ensures kept { Kept (length plan.now.registers.now) staging.old staging.new }
    ensures holds { Holds S.layout plan.now.table.records (certificate (circuit_of plan.now))
        (S.as_numbers cells.old) (S.as_numbers cells.new) }
    ensures value { result ≡ rounds (circuit_of plan.now) }
{
    let mut count: u32 = 0;
    // No `for`: document 01's rounds end when one changes no register.
    loop {
        let changed = stage::<S>(plan, rule, cells, staging);
        if !changed {
            break count;
        }
        commit::<S>(plan, staging, cells);
        settle::<S, FactRule>(&plan.table, plan.wires, rule, cells);
        count += 1;
    }
}

// The certificate of a table whose order stands in the scratch, written to a store. How many rounds it took.
pub fn write_certificate<S: Store<Value = Fact>>(
    table: &Table,
    scratch: &mut [u16],
    order: Order,
    cells: &mut [S::Number],
    powers: &PowerTable,
) -> u32
    requires { Ready S.layout room table.now.bytes.now table.now.records scratch.old order.wires order.registers (S.as_numbers cells.old) }
    ensures kept { Kept (table.now.records * room) scratch.old scratch.new }
    ensures holds { Holds S.layout table.now.records (certificate (tables.circuit_of table.now))
        (S.as_numbers cells.old) (S.as_numbers cells.new) }
    ensures value { result ≡ rounds (tables.circuit_of table.now) }
{
    let (ordered, staging) = scratch.split_at_mut(table.records);
    let plan = Plan::new(table, ordered, order);
    let rule = FactRule { powers };
    write_initial::<S, FactRule>(&plan.table, cells);
    settle::<S, FactRule>(&plan.table, plan.wires, &rule, cells);
    run_rounds::<S>(&plan, &rule, staging, cells)
}
