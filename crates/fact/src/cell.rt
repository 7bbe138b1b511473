// Facts in a certificate's bytes, 8 a variable.
ghost use Rattle.std.specs.Prelude.{◌≡◌, ◌+◌, ◌*◌, ◌≤◌, length};
ghost use Rattle.buffer.specs.Store.{Wrote};
ghost use Rattle.fact.specs.Fact.{fact_byte, fact_number, fact_at};
ghost use Rattle.fact.specs.Cells.{facts};

use crate::Fact;
use circuit::number::u32_at;

// Byte 0 of a fact.
pub fn byte(f: Fact) -> u8
    ensures { result ≡ fact_byte f }
{
    match f {
        Fact::Always(_) => 1,
        Fact::Open => 2,
        Fact::Marked => 3,
    }
}

pub fn number(f: Fact) -> u32
    ensures { result ≡ fact_number f }
{
    match f {
        Fact::Always(n) => n,
        Fact::Open | Fact::Marked => 0,
    }
}

// The fact of variable v. The number is read before the byte is looked at, so that no branch waits for it.
pub fn load(cells: &[u8], v: usize) -> Fact
    requires { v * 8 + 8 ≤ length cells.now }
    ensures { result ≡ fact_at cells.now v }
{
    let n = u32_at(cells, v * 8 + 4);
    let kind = cells[v * 8];
    match kind {
        1 => Fact::Always(n),
        2 => Fact::Open,
        _ => Fact::MARKED,
    }
}

// The 8 bytes of a fact, written as variable v's.
pub fn store(cells: &mut [u8], v: usize, f: Fact)
    requires { v * 8 + 8 ≤ length cells.old }
    ensures { Wrote facts cells.old cells.new (v * 8) f }
{
    let at = v * 8;
    let [a, b, c, d] = number(f).to_le_bytes();
    cells[at] = byte(f);
    cells[at + 1] = 0;
    cells[at + 2] = 0;
    cells[at + 3] = 0;
    cells[at + 4] = a;
    cells[at + 5] = b;
    cells[at + 6] = c;
    cells[at + 7] = d;
}
