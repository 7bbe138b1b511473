// The lines: a refusal with its number and place, an order or a loop with its counts and a checksum.
ghost use Rattle.std.specs.Prelude.{◌≤◌, length};
ghost use Rattle.schedule_test.specs.Shown.{shown};

use circuit::refusal::{Refusal, ground_number};
use schedule::Order;

// A checksum over the first numbers of the scratch, in which their order counts.
fn checksum(s: &[u16], count: usize) -> usize
    requires { count ≤ length s.now }
{
    let mut sum: usize = 0;
    for x in &s[..count] {
        sum = (sum * 31 + usize::from(*x)) % 65536;
    }
    sum
}

// The line of a refusal.
pub fn print_refusal(output: &impl Print, refusal: Refusal) {
    let number = ground_number(refusal.reason);
    let place = refusal.place;
    let _ = println!(output; "refused {number} at {place}");
}

// The line of an order, or of a loop.
pub fn print_schedule(output: &impl Print, scheduled: Result<Order, Refusal>, scratch: &[u16])
    requires { shown scheduled ≤ length scratch.now }
{
    match scheduled {
        Ok(Order { wires, registers }) => {
            let sum = checksum(scratch, wires + registers);
            let _ = println!(output; "order {wires} {registers} {sum}");
        }
        Err(refusal) => {
            let size = refusal.place;
            let sum = checksum(scratch, size);
            let _ = println!(output; "loop {size} {sum}");
        }
    }
}
