// Nets: variables that are inputs, wires or registers, over any type of values. How wires settle, what a round is,
// when the rounds stop; loops of wires; the machine that is poked and ticked. Definitions and laws; there is no
// function here.
#![tactic(auto)]

// A stimulus of the machine: a poke sets one input to a value, a tick moves the registers.
#[derive(Clone, Copy)]
pub enum Stimulus {
    Poke(u16, u32),
    Tick,
}
