// Stimuli one after another, each on the state that the one before left.
ghost use Rattle.std.specs.Prelude.{◌≡◌, ◌*◌, ◌≤◌, ◌<◌, length, Ok};
ghost use Rattle.net.specs.declared.Stimulus.TheVariants.{Poke};
ghost use Rattle.net.specs.Machine as net;
ghost use Rattle.buffer.specs.Kept.{Kept};
ghost use Rattle.buffer.specs.Store.{numbers, Moves};
ghost use Rattle.circuit.specs.Refusal.{passed};
ghost use Rattle.circuit.specs.Circuit.{graph};
ghost use Rattle.circuit.specs.Machine as definition;
ghost use Rattle.circuit.specs.Stimuli.{stimuli, check_stimulus, check_stimuli};
ghost use Rattle.engine.specs.Plans.{circuit_of};
ghost use Rattle.machine.specs.Staging.{PlainUnless};

use crate::reader::StimulusReader;
use crate::rule::Evaluation;
use crate::stimulus::stimulus_in;
use crate::store::Numbers;
use crate::tick::{has_enable, tick};
use engine::pass::settle;
use engine::plan::Plan;
use net::Stimulus;

// A poke sets one input, and the wires follow.
fn poke(plan: &Plan, values: &mut [u32], v: usize, x: u32)
    requires lent { plan.now.table.records ≤ length values.old }
    requires below { v < plan.now.table.records }
    ensures { Moves numbers plan.now.table.records (net.act (graph (circuit_of plan.now))
        (definition.values (circuit_of plan.now)) (Poke v x))
        values.old values.new }
{
    values[v] = x;
    settle::<Numbers, Evaluation>(&plan.table, plan.wires, &Evaluation, values);
}

// One stimulus that meets none of grounds 15 to 17.
fn act(plan: &Plan, staging: &mut [u16], values: &mut [u32], enables: bool, stimulus: Stimulus)
    requires lent { plan.now.table.records ≤ length values.old }
    requires room { length plan.now.registers.now * 2 ≤ length staging.old }
    requires plain_unless { PlainUnless enables plan.now.table }
    requires stimulus_value { check_stimulus (circuit_of plan.now) (Ok stimulus) 0 ≡ passed }
    ensures kept { Kept (length plan.now.registers.now * 2) staging.old staging.new }
    ensures moves { Moves numbers plan.now.table.records (net.act (graph (circuit_of plan.now))
        (definition.values (circuit_of plan.now)) stimulus)
        values.old values.new }
{
    match stimulus {
        Stimulus::Poke(v, x) => poke(plan, values, usize::from(v), x),
        Stimulus::Tick => tick(plan, staging, values, enables),
    }
}

// All stimuli of a list that meets none of grounds 12 to 17.
pub fn run(plan: &Plan, s: &[u8], staging: &mut [u16], values: &mut [u32])
    requires lent { plan.now.table.records ≤ length values.old }
    requires room { length plan.now.registers.now * 2 ≤ length staging.old }
    requires s_value { check_stimuli (circuit_of plan.now) s.now ≡ passed }
    ensures kept { Kept (length plan.now.registers.now * 2) staging.old staging.new }
    ensures moves { Moves numbers plan.now.table.records (net.run (graph (circuit_of plan.now))
        (definition.values (circuit_of plan.now)) (stimuli s.now))
        values.old values.new }
{
    if s.len() < 8 {
        return;
    }
    let enables = has_enable(plan);
    for read in StimulusReader::new(s) {
        act(plan, staging, values, enables, stimulus_in(read));
    }
}
