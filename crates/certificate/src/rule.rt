// The rule of facts, over any store of them.
ghost use Rattle.std.specs.Prelude.{◌≡◌};
ghost use Rattle.fact.specs.Rule.{rule};
ghost use Rattle.fact.specs.Certificate.{initial_fact};
ghost use Rattle.certificate.specs.Lawful.{lawful};

use crate::evaluate::{initial_fact, wire_fact};
use circuit::record::Record;
use circuit::table::Table;
use circuit::width::PowerTable;
use engine::rule::Rule;
use engine::store::Store;
use fact::Fact;

// The rule takes its powers of two from a table.
#[derive(Clone, Copy)]
pub struct FactRule<'a> {
    pub powers: &'a PowerTable,
}

impl<'a, S: Store<Value = Fact>> Rule<S> for FactRule<'a> {
    ghost initial = { initial_fact };

    ghost values = { rule };

    ghost lawful = { λ t n table. lawful table };

    fn initial(r: Record) -> Fact
        ensures { result ≡ initial_fact r }
    {
        initial_fact(r)
    }

    fn wire(&self, table: &Table, cells: &[S::Number], v: usize) -> Fact {
        wire_fact::<S>(table, self, cells, v)
    }
}
