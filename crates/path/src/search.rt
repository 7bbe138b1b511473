// The breadth-first search along uses from a marked variable to the first secret input, without recursion. Behind the
// facts stand the queue of the variables found, the place that each was found from, and each variable's own place.
ghost use Rattle.std.specs.Prelude.{◌≡◌, not, ℕ, ◌+◌, ◌*◌, ◌≤◌, ◌<◌, T, length};
ghost use Rattle.buffer.specs.Kept.{KeptOutside};
ghost use Rattle.circuit.specs.Record.{input_of};
ghost use Rattle.circuit.specs.Reading.{fields_at, decode};
ghost use Rattle.circuit.specs.Circuit.{record_of};
ghost use Rattle.circuit.specs.Tables.{circuit_of};
ghost use Rattle.fact.specs.declared.Fact.TheVariants.{Marked};
ghost use Rattle.fact.specs.TwoRuns.{is_secret};
ghost use Rattle.analysis.specs.Cells.{room};
ghost use Rattle.path.specs.Row.{secret, uses_under};
ghost use Rattle.path.specs.Search.{facts, FactsStand, queued, found, Unfound, VisitedOne, Searching, Found};

use crate::uses::uses_under;
use circuit::table::{Table, code_at, kind_at};

// Byte 0 of the fact marked.
pub const MARKED: u16 = 3;

// Whether record v is a secret input.
fn is_secret(t: &[u8], v: usize) -> bool
    requires { v * 16 + 16 ≤ length t.now }
    ensures { result ≡ is_secret (input_of (decode (fields_at t.now (v * 16)))) }
{
    kind_at(t, v) == 0 && 2 <= code_at(t, v)
}

// Puts u at the end of the queue, as found from the one at `head`, if it is marked and not found yet. How many are
// queued.
fn visit(s: &mut [u16], n: usize, head: usize, tail: usize, u: usize) -> usize
    requires room_in_bounds { (n * room ≤ length s.old) × (n ≤ 4096) × (head < n) × (u < n) }
    requires tail_lt_n { Unfound n u s.old → tail < n }
    ensures { VisitedOne n head u s.old tail s.new result }
{
    if s[u * 3] != MARKED || s[n * 5 + u] != 0 {
        return tail;
    }
    s[n * 3 + tail] = u as u16;
    s[n * 4 + tail] = head as u16;
    s[n * 5 + u] = (tail + 1) as u16;
    tail + 1
}

// Visits what v, at the head of the queue, uses, the lowest first. How many are queued.
fn visit_uses(table: &Table, s: &mut [u16], head: usize, tail: usize, v: usize) -> usize
    requires searching { Searching table.now s.old head tail 0 }
    requires v_at_head { (head < tail) × (v ≡ queued table.now.records s.old head)
        × T (not (secret (circuit_of table.now) v)) }
    requires uses_some { 0 < length (uses_under (facts table.now) (record_of (circuit_of table.now) v)) }
    ensures searching_after { Searching table.now s.new (head + 1) result 0 }
    ensures first_unchanged { queued table.now.records s.new 0 ≡ queued table.now.records s.old 0 }
    ensures kept_outside { KeptOutside (table.now.records * 3) (table.now.records * 6) s.old s.new }
{
    let n = table.records;
    let mut queued = tail;
    for u in uses_under(table, s, v) {
        queued = visit(s, n, head, queued, u);
    }
    queued
}

// Searches from v on. The place of the first secret input in the queue.
pub fn search(table: &Table, s: &mut [u16], v: usize) -> usize
    requires facts_stand { FactsStand table.now s.old }
    requires v_marked { (v < table.now.records) × (facts table.now v ≡ Marked) }
    requires none_found { (u : ℕ) → u < table.now.records → found table.now.records s.old u ≡ 0 }
    ensures found { Found table.now v s.new result }
    ensures kept_outside { KeptOutside (table.now.records * 3) (table.now.records * 6) s.old s.new }
{
    let n = table.records;
    s[n * 3] = v as u16;
    s[n * 5 + v] = 1;
    let mut head: usize = 0;
    let mut tail: usize = 1;
    // No `for`: the queue grows as it is read, and a secret input comes before its end.
    loop {
        let u = usize::from(s[n * 3 + head]);
        if is_secret(table.bytes, u) {
            break head;
        }
        tail = visit_uses(table, s, head, tail, u);
        head += 1;
    }
}
