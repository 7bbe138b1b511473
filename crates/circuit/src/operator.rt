// The nine operators: read from the code byte, and evaluated by it.
ghost use Rattle.std.specs.Prelude.{◌≡◌, ℕ, ◌%◌, ◌^◌, ◌≤◌};
ghost use Rattle.circuit.specs.Operator.{operator_code, read_operator, apply, result_of_code};
ghost use Rattle.circuit.specs.Machine as machine;

use crate::width::Width;

// The operators in the order of their codes.
#[derive(Clone, Copy)]
pub enum Operator {
    Add,
    Sub,
    And,
    Or,
    Xor,
    Equal,
    Less,
    ShiftLeft,
    ShiftRight,
}

// The operator of a code byte, if it has one.
pub fn read_operator(code: u8) -> Option<Operator>
    ensures { result ≡ read_operator code }
{
    match code {
        0 => Some(Operator::Add),
        1 => Some(Operator::Sub),
        2 => Some(Operator::And),
        3 => Some(Operator::Or),
        4 => Some(Operator::Xor),
        5 => Some(Operator::Equal),
        6 => Some(Operator::Less),
        7 => Some(Operator::ShiftLeft),
        8 => Some(Operator::ShiftRight),
        9..=255 => None,
    }
}

pub fn operator_code(op: Operator) -> u8
    ensures { result ≡ operator_code op }
{
    op as u8
}

// a times 2^b at 32 bits, and 0 from 32 on.
fn shift_left(a: u32, b: u32) -> u32
    ensures { result ≡ apply Operator.ShiftLeft 32 a b % 2 ^ 32 }
{
    if b < 32 { a << b } else { 0 }
}

// a divided by 2^b, and 0 from 32 on.
fn shift_right(a: u32, b: u32) -> u32
    ensures { result ≡ apply Operator.ShiftRight 32 a b }
{
    if b < 32 { a >> b } else { 0 }
}

// A number that has the result's remainder at every width; 0 for a code past the last.
fn wrapped(code: u8, a: u32, b: u32) -> u32
    ensures { (w : ℕ) → w ≤ 32 → result % 2 ^ w ≡ result_of_code code w a b }
{
    match code {
        0 => a.wrapping_add(b),
        1 => a.wrapping_sub(b),
        2 => a & b,
        3 => a | b,
        4 => a ^ b,
        5 => u32::from(a == b),
        6 => u32::from(a < b),
        7 => shift_left(a, b),
        8 => shift_right(a, b),
        9..=255 => 0,
    }
}

// The result of the operator of a code, at a width.
pub fn evaluate(code: u8, width: Width, a: u32, b: u32) -> u32
    ensures { result ≡ result_of_code code width.bits a b }
{
    width.remainder(wrapped(code, a, b))
}

// What a multiplexer takes, at a width: b where a is not 0, else c.
pub fn multiplex(width: Width, a: u32, b: u32, c: u32) -> u32
    ensures { result ≡ machine.multiplex width.bits a b c }
{
    width.remainder(if a == 0 { c } else { b })
}
