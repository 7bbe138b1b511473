// Rules: what the variables of a table get, over any store of their values.
ghost use Rattle.std.specs.Prelude.{◌≡◌, List, ℕ};
ghost use Rattle.net.specs.Net as net;
ghost use Rattle.circuit.specs.declared.record.Record.{Record};
ghost use Rattle.circuit.specs.Circuit.{Circuit, circuit};
ghost use Rattle.circuit.specs.Checks.{Checked};
ghost use Rattle.circuit.specs.Tables.{circuit_of};
ghost use Rattle.engine.specs.Ready.{Evaluable};
ghost use Rattle.engine.specs.Rules.{Lawful, read_off};

use crate::store::Store;
use circuit::record::Record;
use circuit::table::Table;

// A rule for the variables of any circuit.
pub trait Rule<S: Store> {
    // What a variable has before any pass, by its record.
    ghost initial: { Record → S.Value };

    // What each variable gets from a store.
    ghost values: { Circuit → (ℕ → S.Value) → ℕ → S.Value };

    fn initial(r: Record) -> S::Value
        ensures { result ≡ initial r };

    // What wire v gets from the store in a buffer.
    fn wire(&self, table: &Table, cells: &[S::Number], v: usize) -> S::Value
        requires { Evaluable S.layout net.wire table.now.bytes.now table.now.records (S.as_numbers cells.now) v }
        ensures { result ≡ values (circuit_of table.now) (read_off S.layout (S.as_numbers cells.now)) v };

    ghost lawful: { (t : List ℕ) (n : ℕ) → Checked t n → Lawful t n (values (circuit t n)) };
}
