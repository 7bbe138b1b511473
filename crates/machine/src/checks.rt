// Grounds 12 to 17: the list's length, and each of its stimuli.
ghost use Rattle.std.specs.Prelude.{◌≡◌, ◌/◌, ◌^◌, leb, length, Ok};
ghost use Rattle.std.proofs.Math.Option.{some};
ghost use Rattle.net.specs.declared.Stimulus.TheVariants.{Poke};
ghost use Rattle.circuit.specs.declared.refusal.Ground.TheVariants as grounds;
ghost use Rattle.circuit.specs.Refusal.{passed, refuse};
ghost use Rattle.circuit.specs.Tables.{circuit_of};
ghost use Rattle.circuit.specs.Stimuli.{fixed_to_other, check_stimulus, check_stimuli_from, check_stimuli};

use crate::reader::StimulusReader;
use circuit::record::{InputKind, Record};
use circuit::refusal::{Check, Ground};
use circuit::table::{Table, record_at};
use circuit::width::Width;
use net::Stimulus;

// Whether an input is fixed to another number than x.
fn fixed_to_other(kind: InputKind, x: u32) -> bool
    ensures { result ≡ fixed_to_other (some kind) x }
{
    match kind {
        InputKind::Fixed(n) => x != n,
        InputKind::Free | InputKind::Secret => false,
    }
}

// Grounds 17 and 16, in this order, of stimulus i, which pokes an input with x.
fn check_value(width: Width, kind: InputKind, x: u32, i: usize) -> Check
    ensures { result ≡ refuse grounds.FixedInput i (fixed_to_other (some kind) x)
        (refuse grounds.PokeTooWide i (leb (2 ^ width.bits) x) passed) }
{
    let tied = fixed_to_other(kind, x);
    let unfit = width.is_exceeded_by(x);
    if tied {
        return Err(Ground::FixedInput.at(i));
    }
    if unfit {
        return Err(Ground::PokeTooWide.at(i));
    }
    Ok(())
}

// Grounds 15 to 17 of stimulus i, which pokes variable v with x.
fn check_poke(table: &Table, v: usize, x: u32, i: usize) -> Check
    ensures { result ≡ check_stimulus (circuit_of table.now) (Ok (Poke v x)) i }
{
    if table.records <= v {
        return Err(Ground::NotAnInput.at(i));
    }
    let Record::Input(w, kind) = record_at(table.bytes, v) else {
        return Err(Ground::NotAnInput.at(i));
    };
    check_value(Width::new(w), kind, x, i)
}

// Grounds 14 to 17 of stimulus i.
fn check_stimulus(table: &Table, read: Result<Stimulus, Ground>, i: usize) -> Check
    ensures { result ≡ check_stimulus (circuit_of table.now) read i }
{
    match read {
        Err(reason) => Err(reason.at(i)),
        Ok(Stimulus::Tick) => Ok(()),
        Ok(Stimulus::Poke(v, x)) => check_poke(table, usize::from(v), x, i),
    }
}

// Grounds 14 to 17 of each stimulus.
fn check_each(table: &Table, s: &[u8]) -> Check
    ensures { result ≡ check_stimuli_from (circuit_of table.now) s.now (length s.now / 8) 0 }
{
    for (i, read) in StimulusReader::new(s).enumerate() {
        check_stimulus(table, read, i)?;
    }
    Ok(())
}

// Grounds 12 to 17 of a list of stimuli.
pub fn check_stimuli(table: &Table, s: &[u8]) -> Check
    ensures { result ≡ check_stimuli (circuit_of table.now) s.now }
{
    if s.len() % 8 != 0 {
        return Err(Ground::StimuliNotWhole.at(0));
    }
    if 4096 < s.len() / 8 {
        return Err(Ground::TooManyStimuli.at(0));
    }
    check_each(table, s)
}
