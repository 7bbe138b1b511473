// The row from the queue: how many steps a place is from the queue's beginning, and the variables on the way to it.
ghost use Rattle.std.specs.Prelude.{◌≡◌, ◌++◌, ◌+◌, ◌*◌, ◌≤◌, ◌<◌, length, drop};
ghost use Rattle.analysis.specs.Cells.{room};
ghost use Rattle.path.specs.Search.{queued, parent, Falls, Depth, chain};

// How many steps place `at` is from the beginning.
pub fn depth(s: &[u16], n: usize, at: usize) -> usize
    requires { (n * room ≤ length s.now) × (n ≤ 4096) × (at < n) × Falls n s.now at }
    ensures { Depth (parent n s.now) at result × (result ≤ at) }
{
    let mut i = at;
    let mut steps: usize = 0;
    // No `for`: each place is read from the one before, and how many there are is the answer.
    while 0 < i {
        i = usize::from(s[n * 4 + i]);
        steps += 1;
    }
    steps
}

// Writes the variables on the way of so many steps to place `at`, the last one first.
pub fn write_row(s: &[u16], n: usize, at: usize, steps: usize, row: &mut [u16])
    requires room_in_bounds { (n * room ≤ length s.now) × (n ≤ 4096) × (at < n) × Falls n s.now at }
    requires depth { Depth (parent n s.now) at steps × (steps < length row.old) }
    ensures { row.new
        ≡ chain (queued n s.now) (parent n s.now) steps at
        ++ drop (steps + 1) row.old }
{
    let mut i = at;
    for k in (0..steps).rev() {
        row[k + 1] = s[n * 3 + i];
        i = usize::from(s[n * 4 + i]);
    }
    row[0] = s[n * 3 + i];
}
