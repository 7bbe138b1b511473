// The store of facts in a certificate's bytes, 8 a variable.
ghost use Rattle.fact.specs.Cells.{facts};
ghost use Rattle.fact.proofs.Cells.{facts_laws};

use engine::store::Store;
use fact::{Fact, cell};

pub struct FactBytes;

impl Store for FactBytes {
    type Number = u8;

    type Value = Fact;

    ghost as_numbers = { λ bytes. bytes };

    ghost layout = { facts };

    ghost laws = { facts_laws };

    fn load(cells: &[u8], v: usize) -> Fact {
        cell::load(cells, v)
    }

    fn store(cells: &mut [u8], v: usize, x: Fact) {
        cell::store(cells, v, x);
    }
}
