// Little-endian numbers in bytes.
ghost use Rattle.std.specs.Prelude.{◌≡◌, ◌+◌, ◌<◌, length};
ghost use Rattle.circuit.specs.Number.{u16_at, u32_at};

// The number in the two bytes from a place on.
pub fn u16_at(t: &[u8], at: usize) -> u16
    requires { at + 1 < length t.now }
    ensures { result ≡ u16_at t.now at }
{
    u16::from_le_bytes([t[at], t[at + 1]])
}

// The number in the four bytes from a place on.
pub fn u32_at(t: &[u8], at: usize) -> u32
    requires { at + 3 < length t.now }
    ensures { result ≡ u32_at t.now at }
{
    u32::from_le_bytes([t[at], t[at + 1], t[at + 2], t[at + 3]])
}
