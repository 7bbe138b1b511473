// Stimuli read one record after another.
ghost use Rattle.std.specs.Prelude.{◌≡◌, ◌≤◌, ◌-◌, length};
ghost use Rattle.std.specs.Iterator.{at_most};

use crate::stimulus::decode;
use circuit::refusal::Ground;
use net::Stimulus;

// The list's bytes, and the place of the next record in them.
#[derive(Drop)]
pub struct StimulusReader<'a> {
    stimuli: &'a [u8],
    at: usize,
    ghost in_bounds: { at ≤ length stimuli.now },
}

impl<'a> StimulusReader<'a> {
    // At the first stimulus.
    pub fn new(stimuli: &'a [u8]) -> Self
        ensures { (result.stimuli ≡ stimuli.entry) × (result.at ≡ 0) }
    {
        StimulusReader { stimuli, at: 0 }
    }
}

// Each stimulus, or ground 14. The reader moves on by one record.
impl<'a> Iterator for StimulusReader<'a> {
    ghost use Rattle.machine.specs.Reading.{ReadsNext};

    type Item = Result<Stimulus, Ground>;

    ghost next_gives = { ReadsNext };

    ghost remaining = { λ r. at_most (length r.stimuli.now - r.at) };

    fn next(&mut self) -> Option<Result<Stimulus, Ground>> {
        if self.stimuli.len() - self.at < 8 {
            return None;
        }
        let at = self.at;
        self.at += 8;
        Some(decode(self.stimuli, at))
    }
}
