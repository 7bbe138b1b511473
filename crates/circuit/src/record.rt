// A record of a table: its fields as they stand in its 16 bytes, what they read as, and grounds 5 to 10 in order.
ghost use Rattle.std.specs.Prelude.{◌≡◌, ◌+◌, ◌^◌, ◌≤◌, ◌||◌, ltb, [], ◌∷◌, length, ◌==◌, nat_eq, nat_le, nat_lt};
ghost use Rattle.net.specs.Tests.{every};
ghost use Rattle.circuit.specs.Record.{uses};
ghost use Rattle.circuit.specs.Operator.{operator_of};
ghost use Rattle.circuit.specs.Machine.{initial};
ghost use Rattle.circuit.specs.Reading as reading;

use crate::number::{u16_at, u32_at};
use crate::operator::{Operator, read_operator};
use crate::refusal::Ground;
use crate::width::PowerTable;

// The 16 bytes, field by field.
#[derive(Clone, Copy)]
pub struct Fields {
    pub kind: u8,
    pub width: u8,
    pub code: u8,
    pub byte3: u8,
    pub a: u16,
    pub b: u16,
    pub c: u16,
    pub bytes10: u16,
    pub value: u32,
}

// The six kinds, in the order of byte 0.
#[derive(Clone, Copy)]
pub enum Kind {
    Input,
    Constant,
    Operator,
    Multiplexer,
    Register,
    Enabled,
}

// An input is fixed to a number, free or secret.
#[derive(Clone, Copy)]
pub enum InputKind {
    Fixed(u32),
    Free,
    Secret,
}

// One of six kinds, each with its width first. A register's last number is its power-on value; one with an enable has
// its data and its enable before it.
#[derive(Clone, Copy)]
pub enum Record {
    Input(u8, InputKind),
    Constant(u8, u32),
    Operator(u8, Operator, u16, u16),
    Multiplexer(u8, u16, u16, u16),
    Register(u8, u16, u32),
    Enabled(u8, u16, u16, u32),
}

// The fields of the 16 bytes from a place on.
pub fn fields_at(t: &[u8], at: usize) -> Fields
    requires { at + 16 ≤ length t.now }
    ensures { result ≡ reading.fields_at t.now at }
{
    Fields {
        kind: t[at],
        width: t[at + 1],
        code: t[at + 2],
        byte3: t[at + 3],
        a: u16_at(t, at + 4),
        b: u16_at(t, at + 6),
        c: u16_at(t, at + 8),
        bytes10: u16_at(t, at + 10),
        value: u32_at(t, at + 12),
    }
}

// The kind of byte 0, if it has one.
pub fn read_kind(kind: u8) -> Option<Kind>
    ensures { result ≡ reading.read_kind kind }
{
    match kind {
        0 => Some(Kind::Input),
        1 => Some(Kind::Constant),
        2 => Some(Kind::Operator),
        3 => Some(Kind::Multiplexer),
        4 => Some(Kind::Register),
        5 => Some(Kind::Enabled),
        6..=255 => None,
    }
}

// The kind of input of a code byte, if it has one.
pub fn read_input(code: u8, value: u32) -> Option<InputKind>
    ensures { result ≡ reading.read_input code value }
{
    match code {
        0 => Some(InputKind::Fixed(value)),
        1 => Some(InputKind::Free),
        2 => Some(InputKind::Secret),
        3..=255 => None,
    }
}

// The input kind of a code byte, and the operator of one, where no check is wanted.
fn input_kind(code: u8, value: u32) -> InputKind
    ensures { result ≡ reading.input_kind_of code value }
{
    let Some(kind) = read_input(code, value) else {
        return InputKind::Secret;
    };
    kind
}

pub fn operator_of(code: u8) -> Operator
    ensures { result ≡ operator_of code }
{
    let Some(op) = read_operator(code) else {
        return Operator::ShiftRight;
    };
    op
}

// The record that fields read as, without a check.
pub fn decode(f: Fields) -> Record
    ensures { result ≡ reading.decode f }
{
    let kind = f.kind;
    match kind {
        0 => Record::Input(f.width, input_kind(f.code, f.value)),
        1 => Record::Constant(f.width, f.value),
        2 => Record::Operator(f.width, operator_of(f.code), f.a, f.b),
        3 => Record::Multiplexer(f.width, f.a, f.b, f.c),
        4 => Record::Register(f.width, f.a, f.value),
        5..=255 => Record::Enabled(f.width, f.a, f.b, f.value),
    }
}

// Ground 6.
fn bad_width(w: u8) -> bool
    ensures { result ≡ (w == 0 || nat_lt 32 w) }
{
    w == 0 || 32 < w
}

// Ground 7: byte 2 has no such value for the kind.
fn unknown_code(kind: Kind, code: u8) -> bool
    ensures { result ≡ nat_le (reading.codes (reading.kind_number kind)) code }
{
    match kind {
        Kind::Input => read_input(code, 0).is_none(),
        Kind::Operator => read_operator(code).is_none(),
        Kind::Constant | Kind::Multiplexer | Kind::Register | Kind::Enabled => 1 <= code,
    }
}

#[tactic(auto, unfolding(net::specs::Tests::every))]
fn all_zero(byte3: u8, bytes10: u16, a: u16, b: u16, c: u16, value: u32) -> bool
    ensures { result ≡ every (λ x. nat_eq x 0) (byte3 ∷ bytes10 ∷ a ∷ b ∷ c ∷ value ∷ []) }
{
    byte3 == 0 && bytes10 == 0 && a == 0 && b == 0 && c == 0 && value == 0
}

// Ground 8: what the record does not use is 0. What it uses is passed as 0.
fn unused_zero(r: Record, f: Fields) -> bool
    ensures { result ≡ every (λ x. nat_eq x 0) (f.byte3 ∷ f.bytes10 ∷ reading.unused r f) }
{
    match r {
        Record::Input(_, kind) => match kind {
            InputKind::Fixed(_) => all_zero(f.byte3, f.bytes10, f.a, f.b, f.c, 0),
            InputKind::Free => all_zero(f.byte3, f.bytes10, f.a, f.b, f.c, f.value),
            InputKind::Secret => all_zero(f.byte3, f.bytes10, f.a, f.b, f.c, f.value),
        },
        Record::Constant(_, _) => all_zero(f.byte3, f.bytes10, f.a, f.b, f.c, 0),
        Record::Operator(_, _, _, _) => all_zero(f.byte3, f.bytes10, 0, 0, f.c, f.value),
        Record::Multiplexer(_, _, _, _) => all_zero(f.byte3, f.bytes10, 0, 0, 0, f.value),
        Record::Register(_, _, _) => all_zero(f.byte3, f.bytes10, 0, f.b, f.c, 0),
        Record::Enabled(_, _, _, _) => all_zero(f.byte3, f.bytes10, 0, 0, f.c, 0),
    }
}

#[tactic(auto, unfolding(net::specs::Tests::every))]
fn all_below(a: u16, b: u16, c: u16, n: usize) -> bool
    ensures { result ≡ every (λ v. ltb v n) (a ∷ b ∷ c ∷ []) }
{
    usize::from(a) < n && usize::from(b) < n && usize::from(c) < n
}

// Ground 9: every variable that the record uses is below n. One that it uses stands in for each that it does not.
fn uses_below(r: Record, n: usize) -> bool
    ensures { result ≡ every (λ v. ltb v n) (uses r) }
{
    match r {
        Record::Input(_, _) => true,
        Record::Constant(_, _) => true,
        Record::Operator(_, _, a, b) => all_below(a, b, b, n),
        Record::Multiplexer(_, a, b, c) => all_below(a, b, c, n),
        Record::Register(_, a, _) => all_below(a, a, a, n),
        Record::Enabled(_, a, b, _) => all_below(a, b, b, n),
    }
}

// The record that fields read as among n records, or the first of grounds 5 to 10 that holds.
pub fn read_record(f: Fields, n: usize, powers: &PowerTable) -> Result<Record, Ground>
    ensures { result ≡ reading.read_record f n }
{
    let byte = f.kind;
    let Some(kind) = read_kind(byte) else {
        return Err(Ground::UnknownKind);
    };
    if bad_width(f.width) {
        return Err(Ground::BadWidth);
    }
    if unknown_code(kind, f.code) {
        return Err(Ground::UnknownCode);
    }
    let r = decode(f);
    if !unused_zero(r, f) {
        return Err(Ground::UnusedNotZero);
    }
    if !uses_below(r, n) {
        return Err(Ground::NoSuchVariable);
    }
    if powers.width(f.width).is_exceeded_by(f.value) {
        return Err(Ground::ValueTooWide);
    }
    Ok(r)
}

// What a register holds at power-on; 0 for an input, a fixed one too, and for a wire.
pub fn initial_value(r: Record) -> u32
    ensures { result ≡ initial r }
{
    match r {
        Record::Input(..) | Record::Constant(..) | Record::Operator(..) | Record::Multiplexer(..) =>
            0,
        Record::Register(_, _, n) | Record::Enabled(_, _, _, n) => n,
    }
}
