// What the rule gives a variable of a table, from the facts in a store.
ghost use Rattle.std.specs.Prelude.{◌≡◌};
ghost use Rattle.net.specs.Net as net;
ghost use Rattle.fact.specs.Rule as definition;
ghost use Rattle.fact.specs.Certificate.{initial_fact};
ghost use Rattle.circuit.specs.Tables.{circuit_of};
ghost use Rattle.engine.specs.Ready.{Evaluable};
ghost use Rattle.engine.specs.Rules.{read_off};

use crate::rule::FactRule;
use circuit::record::{Record, operator_of};
use circuit::table::{Table, a_at, b_at, c_at, code_at, kind_at, value_at, width_at};
use engine::store::Store;
use fact::{Fact, enabled_rule, input_rule, multiplexer_rule, operator_rule, register_rule};

// What a variable has before any round.
pub fn initial_fact(r: Record) -> Fact
    ensures { result ≡ initial_fact r }
{
    match r {
        Record::Input(_, kind) => input_rule(kind),
        Record::Constant(..) | Record::Operator(..) | Record::Multiplexer(..) => Fact::Open,
        Record::Register(_, _, n) | Record::Enabled(_, _, _, n) => Fact::Always(n),
    }
}

// What wire v's rule gives. It is no input and no register, so what is no constant and no operator is a multiplexer.
pub fn wire_fact<S: Store<Value = Fact>>(
    table: &Table,
    rule: &FactRule,
    cells: &[S::Number],
    v: usize,
) -> Fact
    requires { Evaluable S.layout net.wire table.now.bytes.now table.now.records (S.as_numbers cells.now) v }
    ensures { result ≡ definition.rule (circuit_of table.now) (read_off S.layout (S.as_numbers cells.now)) v }
{
    let t = table.bytes;
    let kind = kind_at(t, v);
    match kind {
        1 => Fact::Always(value_at(t, v)),
        2 => {
            operator_rule(
                operator_of(code_at(t, v)),
                rule.powers.width(width_at(t, v)),
                S::load(cells, a_at(t, v)),
                S::load(cells, b_at(t, v)),
            )
        }
        _ => {
            multiplexer_rule(
                rule.powers.width(width_at(t, v)),
                S::load(cells, a_at(t, v)),
                S::load(cells, b_at(t, v)),
                S::load(cells, c_at(t, v)),
            )
        }
    }
}

// What register v's rule gives. One that is not of kind 4 has an enable.
pub fn register_fact<S: Store<Value = Fact>>(
    table: &Table,
    rule: &FactRule,
    cells: &[S::Number],
    v: usize,
) -> Fact
    requires { Evaluable S.layout net.register table.now.bytes.now table.now.records (S.as_numbers cells.now) v }
    ensures { result ≡ definition.rule (circuit_of table.now) (read_off S.layout (S.as_numbers cells.now)) v }
{
    let t = table.bytes;
    let width = rule.powers.width(width_at(t, v));
    let kind = kind_at(t, v);
    match kind {
        4 => register_rule(width, value_at(t, v), S::load(cells, a_at(t, v))),
        _ => {
            enabled_rule(
                width,
                value_at(t, v),
                S::load(cells, a_at(t, v)),
                S::load(cells, b_at(t, v)),
            )
        }
    }
}
