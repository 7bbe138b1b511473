// Widths: each with its power of two, by which numbers are brought to the width and held against it.
ghost use Rattle.std.specs.Prelude.{◌≡◌, ◌%◌, ◌^◌, ◌≤◌, nat_le};
ghost use Rattle.circuit.specs.Powers.{Powers};

// A width of at most 32 bits, and 2 to the width.
#[derive(Clone, Copy)]
pub struct Width {
    pub bits: u8,
    pub power: u64,
    pub ghost within: { bits ≤ 32 },
    pub ghost is_power: { power ≡ 2 ^ bits },
}

impl Width {
    // The width of so many bits, with its power by a shift.
    pub fn new(bits: u8) -> Width
        requires { bits ≤ 32 }
        ensures { result.bits ≡ bits }
    {
        Width {
            bits,
            power: 1u64 << bits,
        }
    }

    // A number's remainder by the power.
    pub fn remainder(self, x: u32) -> u32
        ensures { result ≡ x % 2 ^ self.bits }
    {
        remainder(x, self.bits, self.power)
    }

    // Whether a value does not fit the width.
    pub fn is_exceeded_by(self, value: u32) -> bool
        ensures { result ≡ nat_le (2 ^ self.bits) value }
    {
        too_wide(value, self.bits, self.power)
    }
}

// The powers of two by their widths: entry w is 2 to the w.
#[derive(Clone, Copy)]
pub struct PowerTable {
    entries: [u64; 33],
    ghost powers: { Powers entries },
}

// The powers themselves.
const POWERS: [u64; 33] = [
    1, 2, 4, 8, 16, 32, 64, 128, 256, 512, 1024, 2048, 4096, 8192, 16384, 32768, 65536, 131072,
    262144, 524288, 1048576, 2097152, 4194304, 8388608, 16777216, 33554432, 67108864, 134217728,
    268435456, 536870912, 1073741824, 2147483648, 4294967296,
];

impl PowerTable {
    // The table, for a call to make once and to lend: a constant array is built on the stack wherever it is used.
    pub fn new() -> PowerTable {
        PowerTable { entries: POWERS }
    }

    // The width of so many bits, with its power from the table.
    pub fn width(&self, bits: u8) -> Width
        requires { bits ≤ 32 }
        ensures { result.bits ≡ bits }
    {
        Width {
            bits,
            power: self.entries[usize::from(bits)],
        }
    }
}

// The remainder by the modulus, which is 2 to the width. The width is there for the contract alone.
pub fn remainder(x: u32, w: u8, modulus: u64) -> u32
    requires { modulus ≡ 2 ^ w }
    ensures { result ≡ x % 2 ^ w }
{
    (u64::from(x) & (modulus - 1)) as u32
}

// Whether a value does not fit the width w, whose power is the modulus. The width is there for the contract alone.
pub fn too_wide(value: u32, w: u8, modulus: u64) -> bool
    requires { modulus ≡ 2 ^ w }
    ensures { result ≡ nat_le (2 ^ w) value }
{
    modulus <= u64::from(value)
}
