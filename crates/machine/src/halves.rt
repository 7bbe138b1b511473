// Numbers of 32 bits in the scratch, two 16-bit numbers each, the low half first.
ghost use Rattle.std.specs.Prelude.{◌≡◌, ◌+◌, ◌≤◌, ◌<◌, length};
ghost use Rattle.buffer.specs.Store.{Wrote};
ghost use Rattle.machine.specs.Staging.{number_at, halves};

// The number in the two halves from a place on.
pub fn load(scratch: &[u16], at: usize) -> u32
    requires { at + 2 ≤ length scratch.now }
    ensures { result ≡ number_at scratch.now at }
{
    u32::from(scratch[at]) + 65536 * u32::from(scratch[at + 1])
}

// The two halves of a number, written from a place on.
pub fn store(scratch: &mut [u16], at: usize, x: u32)
    requires { at + 2 ≤ length scratch.old }
    ensures { Wrote halves scratch.old scratch.new at x }
{
    scratch[at] = (x % 65536) as u16;
    scratch[at + 1] = (x / 65536) as u16;
}
