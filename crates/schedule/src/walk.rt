// A depth-first walk along the uses of wires, on a stack in the lent scratch. It ends with the wires in an order, or
// with a stack that closes a loop.
ghost use Rattle.std.specs.Prelude.{◌≡◌, ℕ, ◌+◌, ◌-◌, ◌≤◌, ◌<◌, length, get_or, set, OnOk, OnErr, IfOk, IfErr};
ghost use Rattle.circuit.specs.Tables.{circuit_of};
ghost use Rattle.buffer.specs.Kept.{Kept};
ghost use Rattle.schedule.specs.Walk.{finished_state, last, used, state_of};
ghost use Rattle.schedule.specs.Walk.{Walking, Progress, IsNextUse, IsStacked, AllFinished, StackCloses};

use circuit::table::{Table, use_at, wire_uses};

// The state of a finished wire.
const FINISHED: u16 = 5;

// The next variable to start from, how many wires are finished, and where the top of the stack stands.
#[derive(Clone, Copy)]
pub struct Walk {
    pub root: usize,
    pub finished: usize,
    pub top: usize,
}

// The top of the stack with no use left, or with a next use that is done; or its next use, a wire that is unvisited or
// on the stack.
#[derive(Clone, Copy)]
pub enum NextUse {
    NoneLeft(usize),
    Done(usize),
    Unvisited(usize),
    Stacked(usize),
}

// A stack that closes: where its top stands, and the wire on it that the top uses.
#[derive(Clone, Copy)]
pub struct Closing {
    pub top: usize,
    pub used: usize,
}

// The state of a wire in which all its uses are done; 0 for what is no wire.
fn last_state(table: Table, v: usize) -> usize
    requires { v < table.records }
    ensures { result ≡ last (circuit_of table.entry) v }
{
    usize::from(wire_uses(table.bytes, v))
}

// Variable k, counted from 0, of those that wire v uses.
fn used_at(table: Table, v: usize, k: usize) -> usize
    requires v_in_bounds { v < table.records }
    requires k_in_bounds { k + 1 < last (circuit_of table) v }
    ensures { result ≡ used (circuit_of table.entry) v k }
{
    usize::from(use_at(table.bytes, v, k))
}

// One more use is done.
fn advance(s: &mut [u16], i: usize)
    requires { (i < length s.old) × (i ≤ 8192) × (get_or s.old i 0 < finished_state) }
    ensures { s.new ≡ set s.old i (get_or s.old i 0 + 1) }
{
    s[i] += 1;
}

impl Walk {
    // Puts a wire on the stack, none of its uses done.
    fn push(&mut self, s: &mut [u16], n: usize, u: usize)
        requires { (n + n ≤ length s.old) × (n ≤ 4096) × (u < n) × (0 < self.old.top) × (self.old.top ≤ n) }
        ensures fields_after { (self.new.root ≡ self.old.root) × (self.new.finished ≡ self.old.finished)
            × (self.new.top ≡ self.old.top - 1) }
        ensures s_after { s.new ≡ set (set s.old (n + u) 1) (self.old.top - 1) u }
    {
        self.top -= 1;
        s[n + u] = 1;
        s[self.top] = u as u16;
    }

    // Takes the top off the stack and puts it behind the finished wires.
    fn pop(&mut self, s: &mut [u16], n: usize, v: usize)
        requires { (n + n ≤ length s.old) × (n ≤ 4096) × (v < n) × (self.old.finished < n) × (self.old.top < n) }
        ensures fields_after { (self.new.root ≡ self.old.root) × (self.new.finished ≡ self.old.finished + 1)
            × (self.new.top ≡ self.old.top + 1) }
        ensures s_after { s.new ≡ set (set s.old (n + v) finished_state) self.old.finished v }
    {
        s[n + v] = FINISHED;
        s[self.finished] = v as u16;
        self.finished += 1;
        self.top += 1;
    }

    // With an empty stack: visits the next root if it is an unvisited wire, else goes on to the root after it.
    fn visit_root(&mut self, table: Table, s: &mut [u16])
        requires walking { Walking table s.old self.old }
        requires top_value { (self.old.top ≡ table.records) × (self.old.root < table.records) }
        ensures { Progress table.entry s.old self.old s.new self.new }
    {
        let n = table.records;
        let v = self.root;
        if last_state(table, v) == 0 || s[n + v] != 0 {
            self.root += 1;
        } else {
            self.push(s, n, v);
        }
    }

    // Looks at the next use of the top. One test finds it done, as a wire that is on the stack has uses left.
    fn next_use(&self, table: Table, s: &[u16]) -> NextUse
        requires walking { Walking table s.now self.now }
        requires top_in_bounds { self.now.top < table.records }
        ensures { IsNextUse table.entry s.now self.now result }
    {
        let n = table.records;
        let v = usize::from(s[self.top]);
        let state = usize::from(s[n + v]);
        if state == last_state(table, v) {
            return NextUse::NoneLeft(v);
        }
        let u = used_at(table, v, state - 1);
        let other = usize::from(s[n + u]);
        if last_state(table, u) <= other {
            return NextUse::Done(v);
        }
        if other == 0 {
            return NextUse::Unvisited(u);
        }
        NextUse::Stacked(u)
    }

    // One step at the top. Its state is not advanced with a push: the same use is looked at again, and is then finished.
    fn visit_top(&mut self, table: Table, s: &mut [u16]) -> Result<(), Closing>
        requires walking { Walking table s.old self.old }
        requires top_in_bounds { self.old.top < table.records }
        ensures ok { OnOk result (Progress table.entry s.old self.old s.new self.new) }
        ensures err { IfErr result (λ e. (e.top ≡ self.old.top) × IsStacked table.entry s.old self.old e.used) }
        ensures kept { OnErr result ((s.new ≡ s.old) × (self.new ≡ self.old)) }
    {
        let n = table.records;
        match self.next_use(table, s) {
            NextUse::NoneLeft(v) => self.pop(s, n, v),
            NextUse::Done(v) => advance(s, n + v),
            NextUse::Unvisited(u) => self.push(s, n, u),
            NextUse::Stacked(used) => {
                return Err(Closing {
                    top: self.top,
                    used,
                });
            }
        }
        Ok(())
    }
}

// Visits every wire, and says how many there are; or stops at a loop.
#[tactic(auto, using(crate::proofs::Steps::nearer))]
pub fn visit_all(table: Table, s: &mut [u16]) -> Result<usize, Closing>
    requires states_in_bounds { table.records + table.records ≤ length s.old }
    requires unvisited { (v : ℕ) → v < table.records → state_of table.records s.old v ≡ 0 }
    ensures ok { IfOk result (AllFinished table.entry s.new) }
    ensures err { IfErr result (λ e. StackCloses table.entry s.new e.top e.used) }
    ensures kept { Kept (table.entry.records + table.entry.records) s.old s.new }
{
    let n = table.records;
    let mut w = Walk {
        root: 0,
        finished: 0,
        top: n,
    };
    // No `for`: the stack grows and shrinks as the walk goes.
    loop {
        if w.top < n {
            w.visit_top(table, s)?;
        } else if w.root < n {
            w.visit_root(table, s);
        } else {
            return Ok(w.finished);
        }
    }
}
