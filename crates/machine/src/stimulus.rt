// A stimulus from its 8 bytes: what it reads as, or ground 14.
ghost use Rattle.std.specs.Prelude.{◌≡◌, ◌+◌, ◌≤◌, length};
ghost use Rattle.circuit.specs.Stimuli.{stimulus_of, bad_numbers, read_stimulus};
ghost use Rattle.machine.specs.Reading.{stimulus_in};

use circuit::number::{u16_at, u32_at};
use circuit::refusal::Ground;
use net::Stimulus;

// Ground 14: the kind, byte 1, and a tick's variable and value. Early returns: as one expression, or by match, the check
// of a stimulus takes 3 to 26 instructions more.
fn bad_stimulus(kind: u8, byte1: u8, v: u16, x: u32) -> bool
    ensures { result ≡ bad_numbers kind byte1 v x }
{
    if 1 < kind || byte1 != 0 {
        return true;
    }
    if kind == 0 {
        return false;
    }
    v != 0 || x != 0
}

fn stimulus_of(kind: u8, v: u16, x: u32) -> Stimulus
    ensures { result ≡ stimulus_of kind v x }
{
    match kind {
        0 => Stimulus::Poke(v, x),
        _ => Stimulus::Tick,
    }
}

// The stimulus of the 8 bytes from a place on, or ground 14.
pub fn decode(s: &[u8], at: usize) -> Result<Stimulus, Ground>
    requires { at + 8 ≤ length s.now }
    ensures { result ≡ read_stimulus s.now at }
{
    let kind = s[at];
    let v = u16_at(s, at + 2);
    let x = u32_at(s, at + 4);
    if bad_stimulus(kind, s[at + 1], v, x) {
        return Err(Ground::BadStimulus);
    }
    Ok(stimulus_of(kind, v, x))
}

// The stimulus that was read.
pub fn stimulus_in(read: Result<Stimulus, Ground>) -> Stimulus
    ensures { result ≡ stimulus_in read }
{
    read.unwrap_or(Stimulus::Tick)
}
