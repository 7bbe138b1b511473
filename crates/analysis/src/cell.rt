// Facts in the scratch, three 16-bit numbers a variable: byte 0 of the fact, and the two halves of its number.
ghost use Rattle.std.specs.Prelude.{◌≡◌, ◌+◌, ◌*◌, ◌≤◌, length};
ghost use Rattle.buffer.specs.Store.{Wrote};
ghost use Rattle.analysis.specs.Cells.{words, words_at};
ghost use Rattle.analysis.specs.Laws.{words_laws};

use engine::store::Store;
use fact::Fact;
use fact::cell::{byte, number};

// The fact of variable v.
pub fn load(s: &[u16], v: usize) -> Fact
    requires { v * 3 + 3 ≤ length s.now }
    ensures { result ≡ words_at s.now v }
{
    let n = u32::from(s[v * 3 + 1]) + 65536 * u32::from(s[v * 3 + 2]);
    let kind = s[v * 3];
    match kind {
        1 => Fact::Always(n),
        2 => Fact::Open,
        _ => Fact::MARKED,
    }
}

// The three numbers of a fact, written as variable v's.
pub fn store(s: &mut [u16], v: usize, f: Fact)
    requires { v * 3 + 3 ≤ length s.old }
    ensures { Wrote words s.old s.new (v * 3) f }
{
    let at = v * 3;
    let kind = u16::from(byte(f));
    let n = number(f);
    s[at] = kind;
    s[at + 1] = (n % 65536) as u16;
    s[at + 2] = (n / 65536) as u16;
}

// The store of facts so kept.
pub struct FactWords;

impl Store for FactWords {
    type Number = u16;

    type Value = Fact;

    ghost as_numbers = { λ words. words };

    ghost layout = { words };

    ghost laws = { words_laws };

    fn load(cells: &[u16], v: usize) -> Fact {
        load(cells, v)
    }

    fn store(cells: &mut [u16], v: usize, x: Fact) {
        store(cells, v, x);
    }
}
