// A table's records: which are wires, what they use, which are registers, a record whole, and its fields one by one.
ghost use Rattle.std.specs.Prelude.{◌≡◌, ◌+◌, ◌*◌, ◌<◌, ◌≤◌, length, slice_index};
ghost use Rattle.circuit.specs.Record.{uses, wire_uses, is_register};
ghost use Rattle.circuit.specs.Reading.{fields_at, decode};
ghost use Rattle.circuit.specs.Checks.{Checked};

use crate::number::{u16_at, u32_at};
use crate::record;
use crate::record::{Record, fields_at};

// A table: its bytes, and how many records stand in front of them, which passed the checks.
#[derive(Clone, Copy)]
pub struct Table<'a> {
    pub bytes: &'a [u8],
    pub records: usize,
    pub ghost checked: { Checked bytes.now records },
}

impl<'a> Table<'a> {
    // The table of records that passed.
    pub fn new(bytes: &'a [u8], records: usize) -> Table<'a>
        requires { Checked bytes.now records }
        ensures { (result.bytes.now ≡ bytes.now) × (result.records ≡ records) }
    {
        Table { bytes, records }
    }
}

// 0 where record v is no wire, else one more than the number of variables that it uses. The numbers of kinds 0 to 5,
// which are 0, 1, 3, 4, 0 and 0, stand in one number of base 16: no branch depends on which kind it is.
pub fn wire_uses(t: &[u8], v: usize) -> u16
    requires v_in_bounds { v * 16 + 16 ≤ length t.now }
    requires v_bound { (fields_at t.now (v * 16)).kind ≤ 5 }
    ensures { result ≡ wire_uses (decode (fields_at t.now (v * 16))) }
{
    let kind = t[v * 16];
    ((0x4310u32 >> (kind * 4)) % 16) as u16
}

// The number of variables that record v uses: those of kinds 0 to 5 are 0, 0, 2, 3, 1 and 2.
pub fn use_count(t: &[u8], v: usize) -> usize
    requires v_in_bounds { v * 16 + 16 ≤ length t.now }
    requires v_bound { (fields_at t.now (v * 16)).kind ≤ 5 }
    ensures { result ≡ length (uses (decode (fields_at t.now (v * 16)))) }
{
    let kind = t[v * 16];
    ((0x213200u32 >> (kind * 4)) % 16) as usize
}

// Variable k, counted from 0, of those that record v uses.
pub fn use_at(t: &[u8], v: usize, k: usize) -> u16
    requires v_in_bounds { v * 16 + 16 ≤ length t.now }
    requires k_in_bounds { k < length (uses (decode (fields_at t.now (v * 16)))) }
    ensures { result ≡ slice_index (uses (decode (fields_at t.now (v * 16)))) k }
{
    u16_at(t, v * 16 + 4 + k * 2)
}

// Whether record v is a register, with an enable or without.
pub fn is_register(t: &[u8], v: usize) -> bool
    requires { v * 16 + 16 ≤ length t.now }
    ensures { result ≡ is_register (decode (fields_at t.now (v * 16))) }
{
    let kind = t[v * 16];
    4 <= kind
}

// Record v, read without a check.
pub fn record_at(t: &[u8], v: usize) -> Record
    requires { v * 16 + 16 ≤ length t.now }
    ensures { result ≡ decode (fields_at t.now (v * 16)) }
{
    record::decode(fields_at(t, v * 16))
}

// Byte 0 of record v. The passes ask for this number, not for a `Kind`, which would be made from it and matched again
// for each variable in each round.
pub fn kind_at(t: &[u8], v: usize) -> u8
    requires { v * 16 + 16 ≤ length t.now }
    ensures { result ≡ (fields_at t.now (v * 16)).kind }
{
    t[v * 16]
}

// The width of record v.
pub fn width_at(t: &[u8], v: usize) -> u8
    requires { v * 16 + 16 ≤ length t.now }
    ensures { result ≡ (fields_at t.now (v * 16)).width }
{
    t[v * 16 + 1]
}

// Byte 2 of record v.
pub fn code_at(t: &[u8], v: usize) -> u8
    requires { v * 16 + 16 ≤ length t.now }
    ensures { result ≡ (fields_at t.now (v * 16)).code }
{
    t[v * 16 + 2]
}

// Variable A of record v.
pub fn a_at(t: &[u8], v: usize) -> usize
    requires { v * 16 + 16 ≤ length t.now }
    ensures { result ≡ (fields_at t.now (v * 16)).a }
{
    usize::from(u16_at(t, v * 16 + 4))
}

// Variable B of record v.
pub fn b_at(t: &[u8], v: usize) -> usize
    requires { v * 16 + 16 ≤ length t.now }
    ensures { result ≡ (fields_at t.now (v * 16)).b }
{
    usize::from(u16_at(t, v * 16 + 6))
}

// Variable C of record v.
pub fn c_at(t: &[u8], v: usize) -> usize
    requires { v * 16 + 16 ≤ length t.now }
    ensures { result ≡ (fields_at t.now (v * 16)).c }
{
    usize::from(u16_at(t, v * 16 + 8))
}

// The value of record v.
pub fn value_at(t: &[u8], v: usize) -> u32
    requires { v * 16 + 16 ≤ length t.now }
    ensures { result ≡ (fields_at t.now (v * 16)).value }
{
    u32_at(t, v * 16 + 12)
}
