// Ground 24: whether a lent certificate is the table's own, of which the facts stand in the scratch.
ghost use Rattle.std.specs.Prelude.{◌≡◌, not, ◌+◌, ◌*◌, ◌≤◌, length};
ghost use Rattle.circuit.specs.declared.refusal.Ground.TheVariants.{ForeignCertificate};
ghost use Rattle.circuit.specs.Refusal.{refuse_first};
ghost use Rattle.analysis.specs.Cells.{word_bytes, word_bytes_at};
ghost use Rattle.analysis.specs.Own.{same_bytes};

use circuit::refusal::{Check, Ground};

// Whether the 8 bytes from a place on are those of a fact with these three numbers.
#[tactic(auto, unfolding(crate::specs::Own::same_bytes, net::specs::Tests::all_below))]
fn same_bytes(cells: &[u8], at: usize, byte: u16, low: u16, high: u16) -> bool
    requires { at + 8 ≤ length cells.now }
    ensures { result ≡ same_bytes cells.now at (word_bytes byte low high) }
{
    let [a, b] = low.to_le_bytes();
    let [c, d] = high.to_le_bytes();
    u16::from(cells[at]) == byte && cells[at + 1..at + 8] == [0, 0, 0, a, b, c, d]
}

// The first of n variables whose 8 bytes are not those of its fact.
pub fn check_own(n: usize, certificate: &[u8], s: &[u16]) -> Check
    requires { (n * 8 ≤ length certificate.now) × (n * 3 ≤ length s.now) × (n ≤ 4096) }
    ensures { result ≡ refuse_first ForeignCertificate
        (λ v. not (same_bytes certificate.now (v * 8) (word_bytes_at s.now v))) n 0 }
{
    for v in 0..n {
        let at = v * 3;
        if !same_bytes(certificate, v * 8, s[at], s[at + 1], s[at + 2]) {
            return Err(Ground::ForeignCertificate.at(v));
        }
    }
    Ok(())
}
