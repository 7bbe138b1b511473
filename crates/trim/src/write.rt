// The trimmed table: which variables remain, their new numbers in one pass over the records, and their records in
// another.
ghost use Rattle.std.specs.Prelude.{◌≡◌, not, ◌&&◌, ℕ, ◌+◌, ◌*◌, ◌≤◌, ◌<◌, eqb, length, get_or};
ghost use Rattle.net.specs.Chosen.{chosen, place_of};
ghost use Rattle.buffer.specs.Kept.{Filled};
ghost use Rattle.buffer.specs.Store as store;
ghost use Rattle.circuit.specs.declared.record.Record.TheVariants.{Constant};
ghost use Rattle.circuit.specs.Reading.{encode, field_bytes};
ghost use Rattle.circuit.specs.Tables.{circuit_of};
ghost use Rattle.trim.specs.Ready.{remains, Numbered};
ghost use Rattle.trim.specs.Cells.{field_cells, Below, renumber_fields, survivor_fields};

use crate::ALWAYS;
use circuit::number::u32_at;
use circuit::record::{Fields, fields_at};
use circuit::table::{Table, kind_at};

// Whether v remains: it is an input, or its flag in the scratch says that it is visited.
#[tactic(auto, using(crate::proofs::Numbering::input_remains, crate::proofs::Numbering::other_remains))]
fn remains_at(table: &Table, s: &[u16], v: usize) -> bool
    requires { (v < table.now.records) × (v < length s.now) }
    ensures { result ≡ remains (circuit_of table.now) s.now v }
{
    kind_at(table.bytes, v) == 0 || s[v] != 0
}

// Writes the new number of each variable behind the flags. How many remain.
pub fn number_survivors(table: &Table, s: &mut [u16]) -> usize
    requires { table.now.records + table.now.records ≤ length s.old }
    ensures value { result ≡ place_of (remains (circuit_of table.now) s.old) table.now.records }
    ensures filled { Filled table.now.records table.now.records (place_of (remains (circuit_of table.now) s.old))
        s.old s.new }
{
    let n = table.records;
    let mut count: usize = 0;
    for v in 0..n {
        s[n + v] = count as u16;
        if remains_at(table, s, v) {
            count += 1;
        }
    }
    count
}

// The 16 bytes of fields.
fn field_bytes(f: Fields) -> [u8; 16]
    ensures { result ≡ field_bytes f }
{
    let [a0, a1] = f.a.to_le_bytes();
    let [b0, b1] = f.b.to_le_bytes();
    let [c0, c1] = f.c.to_le_bytes();
    let [d0, d1] = f.bytes10.to_le_bytes();
    let [v0, v1, v2, v3] = f.value.to_le_bytes();
    [
        f.kind, f.width, f.code, f.byte3, a0, a1, b0, b1, c0, c1, d0, d1, v0, v1, v2, v3,
    ]
}

// The 16 bytes of fields, written from a place on.
fn write_fields(out: &mut [u8], at: usize, f: Fields)
    requires { at + 16 ≤ length out.old }
    ensures { store.Wrote field_cells out.old out.new at f }
{
    // `copy_from_slice` would put the bytes in memory first; of this loop only the wide stores are left.
    for (i, byte) in field_bytes(f).iter().enumerate() {
        out[at + i] = *byte;
    }
}

// The fields of a constant.
fn constant_fields(width: u8, value: u32) -> Fields
    ensures { result ≡ encode (Constant width value) }
{
    Fields {
        kind: 1,
        width,
        code: 0,
        byte3: 0,
        a: 0,
        b: 0,
        c: 0,
        bytes10: 0,
        value,
    }
}

// Fields with A, B and C looked up behind the flags. One that is not used is 0, whose new number is 0 too, so that no
// branch depends on the kind.
fn renumbered(f: Fields, n: usize, s: &[u16]) -> Fields
    requires below { Below n f }
    requires n_in_bounds { n + n ≤ length s.now }
    ensures { result ≡ renumber_fields (λ u. get_or s.now (n + u) 0) f }
{
    Fields {
        kind: f.kind,
        width: f.width,
        code: f.code,
        byte3: f.byte3,
        a: s[n + usize::from(f.a)],
        b: s[n + usize::from(f.b)],
        c: s[n + usize::from(f.c)],
        bytes10: f.bytes10,
        value: f.value,
    }
}

// Whether a record of this kind becomes a constant by a fact with this byte 0: it is no input, and is called always.
fn becomes_constant(kind: u8, byte: u8) -> bool
    ensures { result ≡ (not (eqb kind 0) && eqb byte 1) }
{
    kind != 0 && byte == ALWAYS
}

// The fields of variable v's record in the trimmed table.
fn trimmed_fields(table: &Table, certificate: &[u8], s: &[u16], v: usize) -> Fields
    requires numbered { Numbered (circuit_of table.now) table.now.records s.now }
    requires v_in_bounds { (table.now.records * 8 ≤ length certificate.now) × (v < table.now.records) }
    ensures { result ≡ survivor_fields (circuit_of table.now) certificate.now s.now v }
{
    let f = fields_at(table.bytes, v * 16);
    if becomes_constant(f.kind, certificate[v * 8]) {
        return constant_fields(f.width, u32_at(certificate, v * 8 + 4));
    }
    renumbered(f, table.records, s)
}

// Variable v's record and its old number, written as number k of both outputs.
fn write_survivor(
    table: &Table,
    certificate: &[u8],
    s: &[u16],
    v: usize,
    k: usize,
    trimmed: &mut [u8],
    numbers: &mut [u16],
)
    requires numbered { Numbered (circuit_of table.now) table.now.records s.now }
    requires v_in_bounds { (table.now.records * 8 ≤ length certificate.now) × (v < table.now.records) }
    requires k_in_bounds { (k * 16 + 16 ≤ length trimmed.old) × (k < length numbers.old) }
    ensures record_written { store.Wrote field_cells trimmed.old trimmed.new (k * 16)
        (survivor_fields (circuit_of table.now) certificate.now s.now v) }
    ensures number_written { store.Wrote store.numbers numbers.old numbers.new k v }
{
    write_fields(trimmed, k * 16, trimmed_fields(table, certificate, s, v));
    numbers[k] = v as u16;
}

// Writes the records of the variables that remain, in order, and their old numbers.
pub fn write_survivors(
    table: &Table,
    certificate: &[u8],
    s: &[u16],
    trimmed: &mut [u8],
    numbers: &mut [u16],
)
    requires numbered { Numbered (circuit_of table.now) table.now.records s.now }
    requires records_in_bounds { (table.now.records * 8 ≤ length certificate.now)
        × (table.now.records * 16 ≤ length trimmed.old) × (table.now.records ≤ length numbers.old) }
    ensures records_written { store.Holds field_cells
        (place_of (remains (circuit_of table.now) s.now) table.now.records)
        (λ j. survivor_fields (circuit_of table.now) certificate.now s.now
        (get_or (chosen (remains (circuit_of table.now) s.now) table.now.records) j 0))
        trimmed.old trimmed.new }
    ensures numbers_written { store.Holds store.numbers
        (place_of (remains (circuit_of table.now) s.now) table.now.records)
        (λ j. get_or (chosen (remains (circuit_of table.now) s.now) table.now.records) j 0)
        numbers.old numbers.new }
{
    let mut k: usize = 0;
    for v in 0..table.records {
        if remains_at(table, s, v) {
            write_survivor(table, certificate, s, v, k, trimmed, numbers);
            k += 1;
        }
    }
}
