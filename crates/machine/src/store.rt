// The store of the machine's values, one number a variable.
ghost use Rattle.buffer.specs.Store.{numbers};
ghost use Rattle.buffer.proofs.Layouts.{numbers_laws};

use engine::store::Store;

pub struct Numbers;

impl Store for Numbers {
    type Number = u32;

    type Value = u32;

    ghost as_numbers = { λ values. values };

    ghost layout = { numbers };

    ghost laws = { numbers_laws };

    fn load(cells: &[u32], v: usize) -> u32 {
        cells[v]
    }

    fn store(cells: &mut [u32], v: usize, x: u32) {
        cells[v] = x;
    }
}
