// What the kept variables reach, visited in linear time, without recursion. In front of the lent scratch stands a flag
// for each variable; those whose uses are not visited yet wait on a stack behind the flags.
ghost use Rattle.std.specs.Prelude.{◌≡◌, ℕ, ◌+◌, ◌*◌, ◌≤◌, ◌<◌, length, get_or};
ghost use Rattle.buffer.specs.Kept.{Kept};
ghost use Rattle.circuit.specs.Record.{uses};
ghost use Rattle.circuit.specs.Circuit.{record_of};
ghost use Rattle.circuit.specs.Tables.{circuit_of};
ghost use Rattle.fact.specs.Fact.{fact_at};
ghost use Rattle.trim.specs.Trimmed.{replaced};
ghost use Rattle.trim.specs.Visits.{Visited, visited_count, VisitedOne, Visiting};
ghost use Rattle.trim.specs.Visits.{Spread, KeptVisited, VisitsReached};

use crate::ALWAYS;
use circuit::table::{Table, use_at, use_count};

// Visits u and puts it on the stack, unless it is visited. How many wait there.
fn visit(s: &mut [u16], n: usize, waiting: usize, u: usize) -> usize
    requires n_in_bounds { (n + n ≤ length s.old) × (n ≤ 4096) × (u < n) }
    requires waiting_lt_n { get_or s.old u 0 ≡ 0 → waiting < n }
    ensures { VisitedOne n u s.old waiting s.new result }
{
    if s[u] != 0 {
        return waiting;
    }
    s[u] = 1;
    s[n + waiting] = u as u16;
    waiting + 1
}

// How many variables v uses, once what is called always is a constant.
fn called_uses(table: &Table, certificate: &[u8], v: usize) -> usize
    requires { (table.now.records * 8 ≤ length certificate.now) × (v < table.now.records) }
    ensures { result ≡ length (uses (record_of (replaced (circuit_of table.now)
        (fact_at certificate.now)) v)) }
{
    if certificate[v * 8] == ALWAYS {
        return 0;
    }
    use_count(table.bytes, v)
}

// Visits all that v, taken off the stack, uses. How many wait.
fn visit_uses(table: &Table, certificate: &[u8], s: &mut [u16], waiting: usize, v: usize) -> usize
    requires v_in_bounds { (table.now.records * 8 ≤ length certificate.now) × (v < table.now.records)
        × Visited s.old v }
    requires visiting { Visiting (replaced (circuit_of table.now) (fact_at certificate.now))
        table.now.records s.old waiting v }
    ensures visiting_after { Visiting (replaced (circuit_of table.now) (fact_at certificate.now))
        table.now.records s.new result table.now.records }
    ensures spread { Spread (replaced (circuit_of table.now) (fact_at certificate.now))
        table.now.records s.old s.new }
    ensures waiting_after { visited_count s.new table.now.records + waiting
        ≡ visited_count s.old table.now.records + result }
{
    let n = table.records;
    let count = called_uses(table, certificate, v);
    let mut stacked = waiting;
    for k in 0..count {
        stacked = visit(s, n, stacked, usize::from(use_at(table.bytes, v, k)));
    }
    stacked
}

// Visits all that the waiting variables reach.
fn visit_all(table: &Table, certificate: &[u8], s: &mut [u16], waiting: usize)
    requires certificate_in_bounds { table.now.records * 8 ≤ length certificate.now }
    requires visiting { Visiting (replaced (circuit_of table.now) (fact_at certificate.now))
        table.now.records s.old waiting table.now.records }
    ensures visiting_after { Visiting (replaced (circuit_of table.now) (fact_at certificate.now))
        table.now.records s.new 0 table.now.records }
    ensures spread { Spread (replaced (circuit_of table.now) (fact_at certificate.now))
        table.now.records s.old s.new }
{
    let n = table.records;
    let mut stacked = waiting;
    // No `for`: the stack grows as it is read.
    while 0 < stacked {
        stacked -= 1;
        let v = usize::from(s[n + stacked]);
        stacked = visit_uses(table, certificate, s, stacked, v);
    }
}

// Visits the kept variables. How many wait.
fn visit_kept(n: usize, kept: &[u16], s: &mut [u16]) -> usize
    requires n_in_bounds { (n + n ≤ length s.old) × (n ≤ 4096) }
    requires kept_below { (i : ℕ) → i < length kept.now → get_or kept.now i 0 < n }
    requires none_visited { (v : ℕ) → v < n → get_or s.old v 0 ≡ 0 }
    ensures { KeptVisited n kept.now (length kept.now)
        s.old s.new result }
{
    let mut stacked: usize = 0;
    for u in kept {
        stacked = visit(s, n, stacked, usize::from(*u));
    }
    stacked
}

// Visits the kept variables and all that they reach.
pub fn visit_reached(table: &Table, certificate: &[u8], kept: &[u16], s: &mut [u16])
    requires n_in_bounds { (table.now.records + table.now.records ≤ length s.old)
        × (table.now.records * 8 ≤ length certificate.now) }
    requires kept_below { (i : ℕ) → i < length kept.now → get_or kept.now i 0 < table.now.records }
    requires none_visited { (v : ℕ) → v < table.now.records → get_or s.old v 0 ≡ 0 }
    ensures visits_reached { VisitsReached (replaced (circuit_of table.now) (fact_at certificate.now))
        kept.now table.now.records s.new }
    ensures kept { Kept (table.now.records + table.now.records) s.old s.new }
{
    let waiting = visit_kept(table.records, kept, s);
    visit_all(table, certificate, s, waiting);
}
