// What a record uses under the facts that stand in front of the scratch, as three numbers in ascending order, of which
// some are the same where it uses fewer.
ghost use Rattle.std.specs.Prelude.{◌≡◌, [], ◌∷◌, ◌*◌, ◌<◌, length};
ghost use Rattle.circuit.specs.Reading.{fields_at};
ghost use Rattle.circuit.specs.Circuit.{record_of};
ghost use Rattle.circuit.specs.Tables.{circuit_of};
ghost use Rattle.path.specs.Row.{uses_under};
ghost use Rattle.path.specs.Uses.{Sorted};
ghost use Rattle.path.specs.Search.{FactsStand, facts};

use analysis::cell::load;
use circuit::table::{Table, a_at, b_at, c_at, kind_at};
use fact::Fact;

// Three numbers in ascending order.
fn sorted(a: usize, b: usize, c: usize) -> [usize; 3]
    ensures { Sorted (a ∷ b ∷ c ∷ []) result }
{
    let (b, c) = (b.min(c), b.max(c));
    let (a, b) = (a.min(b), a.max(b));
    [a, b.min(c), b.max(c)]
}

// What a multiplexer uses: the control and the arm taken, where the control is always a number, else all three.
fn multiplexer_uses(table: &Table, s: &[u16], v: usize) -> [usize; 3]
    requires facts_stand { FactsStand table.now s.now }
    requires v_in_bounds { v < table.now.records }
    requires is_multiplexer { (fields_at table.now.bytes.now (v * 16)).kind ≡ 3 }
    ensures { Sorted (uses_under (facts table.now) (record_of (circuit_of table.now) v)) result }
{
    let a = a_at(table.bytes, v);
    let b = b_at(table.bytes, v);
    let c = c_at(table.bytes, v);
    let control = load(s, a);
    match control {
        Fact::Always(0) => sorted(a, c, c),
        Fact::Always(_) => sorted(a, b, b),
        Fact::Open | Fact::Marked => sorted(a, b, c),
    }
}

// What v uses; it is no input and no constant, as it uses something.
pub fn uses_under(table: &Table, s: &[u16], v: usize) -> [usize; 3]
    requires facts_stand { FactsStand table.now s.now }
    requires v_in_bounds { v < table.now.records }
    requires uses_some { 0 < length (uses_under (facts table.now) (record_of (circuit_of table.now) v)) }
    ensures { Sorted (uses_under (facts table.now) (record_of (circuit_of table.now) v)) result }
{
    let kind = kind_at(table.bytes, v);
    match kind {
        3 => multiplexer_uses(table, s, v),
        4 => [a_at(table.bytes, v); 3],
        _ => {
            let b = b_at(table.bytes, v);
            sorted(a_at(table.bytes, v), b, b)
        }
    }
}
