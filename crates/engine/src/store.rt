// Stores in lent buffers: how the values of a table's variables are kept there.
ghost use Rattle.std.specs.Prelude.{◌≡◌, List, ℕ, ◌+◌, ◌*◌, ◌≤◌, length};
ghost use Rattle.buffer.specs.Store.{Layout, LayoutLaws, Wrote};

// A way to keep values in a buffer. The type alone says which it is; no value of it is needed.
pub trait Store {
    // What the buffer has.
    type Number: Copy;

    type Value: Copy;

    // The elements of a buffer as numbers.
    ghost as_numbers: { List Self.Number → List ℕ };

    // How a value stands in them.
    ghost layout: { Layout Self.Value };

    // The value of variable v.
    fn load(cells: &[Self::Number], v: usize) -> Self::Value
        requires { v * layout.each + layout.each ≤ length (as_numbers cells.now) }
        ensures { result ≡ layout.at (as_numbers cells.now) (v * layout.each) };

    // Writes x as variable v's value.
    fn store(cells: &mut [Self::Number], v: usize, x: Self::Value)
        requires { v * layout.each + layout.each ≤ length (as_numbers cells.old) }
        ensures { Wrote layout (as_numbers cells.old) (as_numbers cells.new) (v * layout.each) x };

    ghost laws: { LayoutLaws layout };
}
