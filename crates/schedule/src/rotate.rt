// A loop that stands on the stack, written to the front of the scratch with its lowest variable first.
ghost use Rattle.std.specs.Prelude.{◌≡◌, ℕ, ◌+◌, ◌-◌, ◌≤◌, ◌<◌, length, get_or};
ghost use Rattle.buffer.specs.Kept.{Filled};
ghost use Rattle.schedule.specs.Shown.{rotation, Shown};

// The place of u on the stack.
fn find(s: &[u16], top: usize, n: usize, u: usize) -> usize
    requires n_in_bounds { n ≤ length s.now }
    requires by_index { (p : ℕ) × (top ≤ p) × (p < n) × (get_or s.now p 0 ≡ u) }
    ensures { (top ≤ result) × (result < n) × (get_or s.now result 0 ≡ u) }
{
    let found = s[top..n].iter().position(|x| usize::from(*x) == u);
    top + found.unwrap()
}

// The place of the lowest from top to p.
fn lowest(s: &[u16], top: usize, p: usize) -> usize
    requires { (top ≤ p) × (p < length s.now) }
    ensures lower_bound { (top ≤ result) × (result ≤ p) }
    ensures by_index { (i : ℕ) → top ≤ i → i ≤ p → get_or s.now result 0 ≤ get_or s.now i 0 }
{
    let mut m = top;
    for i in top + 1..p + 1 {
        if s[i] < s[m] {
            m = i;
        }
    }
    m
}

// Shows the loop from the place of u down to the top. Its length. Called once at most: inlined, its code slows the walk
// down. Copied by a `for` and turned in two parts: `copy_within` and `rotate_left` need `memmove` and `memcpy` of the C
// library, of which an archive for C would then have to be given more than `memset`.
#[cold]
pub fn show_loop(s: &mut [u16], n: usize, top: usize, u: usize) -> usize
    requires n_in_bounds { (n + n ≤ length s.old) × (n ≤ 4096) × (top < n) }
    requires by_index { (p : ℕ) × (top ≤ p) × (p < n) × (get_or s.old p 0 ≡ u) }
    ensures { Shown n top u s.old s.new result }
{
    let p = find(s, top, n, u);
    let m = lowest(s, top, p);
    let size = p + 1 - top;
    for i in 0..size {
        s[i] = s[top + i];
    }
    let turn = m + 1 - top;
    s[..turn].reverse();
    s[turn..size].reverse();
    size
}
