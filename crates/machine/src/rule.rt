// The rule of the machine: what its variables hold at power-on, and what their records give.
ghost use Rattle.circuit.specs.Machine as definition;
ghost use Rattle.machine.specs.Lawful.{lawful};

use crate::pass::wire_value;
use crate::store::Numbers;
use circuit::record::{Record, initial_value};
use circuit::table::Table;
use engine::rule::Rule;

pub struct Evaluation;

impl Rule<Numbers> for Evaluation {
    ghost initial = { definition.initial };

    ghost values = { definition.values };

    ghost lawful = { λ t n table. lawful table };

    fn initial(r: Record) -> u32 {
        initial_value(r)
    }

    fn wire(&self, table: &Table, cells: &[u32], v: usize) -> u32 {
        wire_value(table, cells, v)
    }
}
