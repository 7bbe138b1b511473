// Lent buffers of numbers: what of them is kept, and stores in them, over any type of values and any layout.
// Definitions and laws; there is no function here.
#![tactic(auto)]
