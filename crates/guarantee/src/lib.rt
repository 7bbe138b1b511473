// Demand 3 over the two calls: what a certificate claims of two runs of its table. One function makes the three calls,
// and its contract is the claim.
#![tactic(auto)]

ghost use Rattle.call.specs.Call.{lent, left};
ghost use Rattle.guarantee.specs.Guarantee.{Guarantees};

use certificate::certify;
use circuit::refusal::Refusal;
use machine::bench;

// The answers of a certifying call and of two bench calls.
#[derive(Clone, Copy)]
pub struct Answers {
    pub certified: Result<u32, Refusal>,
    pub first: Result<(), Refusal>,
    pub second: Result<(), Refusal>,
}

// Certifies a table and runs two lists of stimuli on it. Each call is made whatever the others answer, and has its own
// output and scratch.
pub fn two_runs(
    table: &[u8],
    certificate: &mut [u8],
    scratch: &mut [u16],
    stimuli1: &[u8],
    values1: &mut [u32],
    scratch1: &mut [u16],
    stimuli2: &[u8],
    values2: &mut [u32],
    scratch2: &mut [u16],
) -> Answers
    ensures { Guarantees
        (lent table.now certificate.old scratch.old)
        (left certificate.new scratch.new)
        stimuli1.now
        (lent table.now values1.old scratch1.old)
        (left values1.new scratch1.new)
        stimuli2.now
        (lent table.now values2.old scratch2.old)
        (left values2.new scratch2.new) result }
{
    let certified = certify(table, certificate, scratch);
    let first = bench(table, stimuli1, values1, scratch1);
    let second = bench(table, stimuli2, values2, scratch2);
    Answers {
        certified,
        first,
        second,
    }
}
