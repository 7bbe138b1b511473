// Facts about the variables of a circuit: their order, the rule of each kind of record, the rounds, and the
// certificate. Document 01's cases A to J, C as request S-3 has it, are proved here from bytes.
#![tactic(auto)]

pub mod cell;

ghost use Rattle.std.specs.Prelude.{◌≡◌, false, eqb};
ghost use Rattle.circuit.specs.Operator as operators;
ghost use Rattle.fact.specs.Fact as facts;
ghost use Rattle.fact.specs.Rule as rules;

use circuit::operator::{Operator, evaluate, operator_code};
use circuit::record::InputKind;
use circuit::width::Width;

// What is known of a variable: it always holds one number, it is open, or it is marked, as a secret input can reach it.
#[derive(Clone, Copy, PartialEq, Eq)]
pub enum Fact {
    Always(u32),
    Open,
    Marked,
}

impl Fact {
    // The highest fact.
    pub const MARKED: Fact = Fact::Marked;

    // The fact at a width.
    pub fn narrow(self, width: Width) -> Fact
        ensures { result ≡ facts.narrow width.bits self }
    {
        match self {
            Fact::Always(n) => Fact::Always(width.remainder(n)),
            Fact::Open => Fact::Open,
            Fact::Marked => Fact::MARKED,
        }
    }

    // The lowest fact at or above both.
    pub fn join(self, other: Fact) -> Fact
        ensures { result ≡ facts.join self other }
    {
        match (self, other) {
            (Fact::Always(m), Fact::Always(n)) => if m == n { Fact::Always(m) } else { Fact::Open },
            (Fact::Marked, _) | (_, Fact::Marked) => Fact::MARKED,
            _ => Fact::Open,
        }
    }

    // The fact if it is always, else marked.
    fn always_or_marked(self) -> Fact
        ensures { result ≡ rules.always_or_marked self }
    {
        match self {
            Fact::Always(n) => Fact::Always(n),
            Fact::Open | Fact::Marked => Fact::MARKED,
        }
    }
}

// An input's rule.
pub fn input_rule(kind: InputKind) -> Fact
    ensures { result ≡ rules.input_rule kind }
{
    match kind {
        InputKind::Fixed(n) => if n == 0 { Fact::Always(n) } else { Fact::Open },
        InputKind::Free => Fact::Open,
        InputKind::Secret => Fact::MARKED,
    }
}

// An operator's result at a width.
fn operator_result(op: Operator, width: Width, a: u32, b: u32) -> u32
    ensures { result ≡ operators.result op width.bits a b }
{
    evaluate(operator_code(op), width, a, b)
}

// Whether a known zero decides the operator, by whether A is one and whether B is.
fn zero_decides(op: Operator, a: bool, b: bool) -> bool
    ensures { result ≡ rules.zero_decides op a b }
{
    match op {
        Operator::And => a || b,
        Operator::Less => b,
        Operator::ShiftLeft | Operator::ShiftRight => a,
        Operator::Add | Operator::Sub | Operator::Or | Operator::Xor | Operator::Equal => false,
    }
}

// The same where A is always a number, and B is not.
fn a_decides(op: Operator, a: u32) -> bool
    ensures { result ≡ rules.zero_decides op (eqb a 0) false }
{
    if a != 0 {
        return false;
    }
    zero_decides(op, true, false)
}

// The same where B is always a number, and A is not.
fn b_decides(op: Operator, b: u32) -> bool
    ensures { result ≡ rules.zero_decides op false (eqb b 0) }
{
    if b != 0 {
        return false;
    }
    zero_decides(op, false, true)
}

// An operator's rule, on the facts of A and B. Of two numbers it is always their result, which is 0 where a zero
// decides.
#[tactic(auto, using(crate::proofs::Zeros::known_both))]
pub fn operator_rule(op: Operator, width: Width, a: Fact, b: Fact) -> Fact
    ensures { result ≡ rules.operator_rule op width.bits a b }
{
    match (a, b) {
        (Fact::Always(x), Fact::Always(y)) => Fact::Always(operator_result(op, width, x, y)),
        (Fact::Always(x), _) if a_decides(op, x) => Fact::Always(0),
        (_, Fact::Always(y)) if b_decides(op, y) => Fact::Always(0),
        (Fact::Marked, _) | (_, Fact::Marked) => Fact::MARKED,
        _ => Fact::Open,
    }
}

// A multiplexer's rule, on the facts of A, B and C.
pub fn multiplexer_rule(width: Width, a: Fact, b: Fact, c: Fact) -> Fact
    ensures { result ≡ rules.multiplexer_rule width.bits a b c }
{
    let narrow_b = b.narrow(width);
    let narrow_c = c.narrow(width);
    match a {
        Fact::Always(n) => if n == 0 { narrow_c } else { narrow_b },
        Fact::Open => narrow_b.join(narrow_c),
        Fact::Marked => narrow_b.join(narrow_c).always_or_marked(),
    }
}

// A register's rule, on the fact of A.
pub fn register_rule(width: Width, n: u32, a: Fact) -> Fact
    ensures { result ≡ rules.register_rule width.bits n a }
{
    a.narrow(width).join(Fact::Always(n))
}

// The rule of a register with an enable, on the facts of A and B.
pub fn enabled_rule(width: Width, n: u32, a: Fact, b: Fact) -> Fact
    ensures { result ≡ rules.enabled_rule width.bits n a b }
{
    let plain = register_rule(width, n, a);
    match b {
        Fact::Always(m) => if m == 0 { Fact::Always(n) } else { plain },
        Fact::Open => plain,
        Fact::Marked => plain.always_or_marked(),
    }
}
