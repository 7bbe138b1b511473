// The text that the programs print, made in a lent buffer: numbers in base ten, lines, whole answers. It is put from
// the buffer's end down, since a number's last digit comes out first; a function answers where the text begins. Numbers
// that a program is given as words are read in `word`.
#![tactic(auto)]

ghost use Rattle.std.specs.Prelude.{◌≡◌, [], ◌++◌, ◌*◌, ◌≤◌, length, take};
ghost use Rattle.call.specs.Call.{lent, left, Promises};
ghost use Rattle.certificate.specs.Promise as certified;
ghost use Rattle.machine.specs.Promise as benched;
ghost use Rattle.bill.specs.Promise as billed;
ghost use Rattle.trim.specs.Promise as trims;
ghost use Rattle.path.specs.Promise as traced;
ghost use Rattle.text.specs.Text.{refusal_line, certified_text, benched_text, billed_text, path_text, answer_text};
ghost use Rattle.text.specs.Text.{row_line, number_lines};
ghost use Rattle.text.specs.Pieces.{Put};
ghost use Rattle.text.specs.Writer.{Puts};
ghost use Rattle.text.specs.Prints.{AnswerStands, PathStands, BillStands, TextOf, PromisesInText};
ghost use Rattle.text.specs.Reports.{Tells, Within, BytesOf, PromisesInBytes, written_bytes};

use crate::writer::Writer;
use bill::bill;
use certificate::certify;
use circuit::refusal::Refusal;
use machine::bench;
use path::path;
use trim::trim;

pub mod word;
mod writer;

// The certifying call's answer, on a table of n records.
fn put_certified(
    writer: &mut Writer<'_>,
    answer: Result<u32, Refusal>,
    n: usize,
    certificate: &[u8],
    scratch: &[u16],
)
    requires in_bounds { 131072 ≤ writer.old.at }
    requires answer_stands { AnswerStands certified.each answer n (length certificate.now)
        (length scratch.now) }
    ensures { Puts (answer_text (certified_text certificate.now n) answer
        scratch.now) writer.old writer.new }
{
    match answer {
        Ok(rounds) => {
            writer.put_facts(certificate, n);
            writer.put_number_line(b"rounds ", rounds);
        }
        Err(refusal) => writer.put_refused(refusal, scratch),
    }
}

// Where the line of a refusal begins.
fn put_line(line: &mut [u8], refusal: Refusal) -> usize
    requires { 53 ≤ length line.old }
    ensures { Put (refusal_line refusal.reason refusal.place) line.old (length line.old) line.new result }
{
    let mut writer = Writer::new(line);
    writer.put_refusal(refusal);
    writer.start()
}

// What is told of the certifying call's answer where the certificate has so many bytes.
fn put_report(line: &mut [u8], answer: Result<u32, Refusal>, bytes: usize) -> Result<usize, usize>
    requires { 53 ≤ length line.old }
    ensures tells { Tells answer bytes line.old line.new result }
    ensures within { Within result bytes (length line.old) }
{
    match answer {
        Ok(_) => Ok(bytes),
        Err(refusal) => Err(put_line(line, refusal)),
    }
}

// What is told of the trimming call's answer: 16 bytes for each record written.
fn put_trimmed(line: &mut [u8], answer: Result<usize, Refusal>) -> Result<usize, usize>
    requires in_bounds { 53 ≤ length line.old }
    requires answer_bound { written_bytes answer ≤ 65536 }
    ensures tells { Tells answer (written_bytes answer)
        line.old line.new result }
    ensures within { Within result (written_bytes answer) (length line.old) }
{
    match answer {
        Ok(records) => Ok(records * 16),
        Err(refusal) => Err(put_line(line, refusal)),
    }
}

// The bench call's answer, on a table of n records.
fn put_benched(
    writer: &mut Writer<'_>,
    answer: Result<(), Refusal>,
    n: usize,
    values: &[u32],
    scratch: &[u16],
)
    requires in_bounds { 131072 ≤ writer.old.at }
    requires answer_stands { AnswerStands benched.each (benched.answer_of answer) n (length values.now) (length scratch.now) }
    ensures { Puts (answer_text (benched_text values.now n) (benched.answer_of answer)
        scratch.now) writer.old writer.new }
{
    match answer {
        Ok(()) => writer.put_values(values, n),
        Err(refusal) => writer.put_refused(refusal, scratch),
    }
}

// The path call's answer.
fn put_path(writer: &mut Writer<'_>, answer: Result<usize, Refusal>, row: &[u16], scratch: &[u16])
    requires in_bounds { 131072 ≤ writer.old.at }
    requires path_stands { PathStands answer (length row.now) (length scratch.now) }
    ensures { Puts (answer_text (row_line row.now) answer scratch.now)
        writer.old writer.new }
{
    match answer {
        Ok(size) => writer.put_row(row, size),
        Err(refusal) => writer.put_refused(refusal, scratch),
    }
}

// The answer to an order of n sizes.
fn put_billed(writer: &mut Writer<'_>, answer: Result<u32, Refusal>, n: usize, shares: &[u32])
    requires in_bounds { 2048 ≤ writer.old.at }
    requires bill_stands { BillStands answer n (length shares.now) }
    ensures { Puts (answer_text (billed_text shares.now n) answer [])
        writer.old writer.new }
{
    match answer {
        Ok(cents) => {
            writer.put_values(shares, n);
            writer.put_number_line(b"bill ", cents);
        }
        Err(refusal) => writer.put_refusal(refusal),
    }
}

// Certifies a table and makes the text of the answer. It stands in `out` from the place answered up to the end.
pub fn certify_text(
    table: &[u8],
    certificate: &mut [u8],
    scratch: &mut [u16],
    out: &mut [u8; 131072],
) -> usize
    ensures promises_in_text { PromisesInText certified.certifying certified_text
        (lent table.now certificate.old scratch.old)
        (left certificate.new scratch.new)
        out.old out.new result }
    ensures upper_bound { (result ≤ 131072) × (131072 ≤ length out.new) }
{
    let answer = certify(table, certificate, scratch);
    let mut writer = Writer::new(out);
    put_certified(&mut writer, answer, table.len() / 16, certificate, scratch);
    writer.start()
}

// Certifies a table for a program that reads the certificate's own bytes. A refusal's line stands in `line` from the
// place answered up to the end.
pub fn certify_bytes(
    table: &[u8],
    certificate: &mut [u8],
    scratch: &mut [u16],
    line: &mut [u8; 64],
) -> Result<usize, usize>
    ensures promises_in_bytes { PromisesInBytes certified.certifying certified.each
        (lent table.now certificate.old scratch.old)
        (left certificate.new scratch.new)
        line.old line.new result }
    ensures within { Within result (length certificate.new) 64 × (64 ≤ length line.new) }
{
    let answer = certify(table, certificate, scratch);
    put_report(line, answer, table.len() / 16 * 8)
}

// Runs a list of stimuli on a table and makes the text of the answer. It stands in `out` from the place answered up to
// the end.
pub fn bench_text(
    table: &[u8],
    stimuli: &[u8],
    values: &mut [u32],
    scratch: &mut [u16],
    out: &mut [u8; 131072],
) -> usize
    ensures promises_in_text { PromisesInText (benched.benching stimuli.now) benched_text
        (lent table.now values.old scratch.old)
        (left values.new scratch.new)
        out.old out.new result }
    ensures upper_bound { (result ≤ 131072) × (131072 ≤ length out.new) }
{
    let answer = bench(table, stimuli, values, scratch);
    let mut writer = Writer::new(out);
    put_benched(&mut writer, answer, table.len() / 16, values, scratch);
    writer.start()
}

// Finds a variable's path and makes the text of the answer. It stands in `out` from the place answered up to the end.
pub fn path_text(
    table: &[u8],
    variable: u32,
    row: &mut [u16],
    scratch: &mut [u16],
    out: &mut [u8; 131072],
) -> usize
    ensures promises_in_text { PromisesInText (traced.tracing variable) path_text
        (lent table.now row.old scratch.old)
        (left row.new scratch.new)
        out.old out.new result }
    ensures upper_bound { (result ≤ 131072) × (131072 ≤ length out.new) }
{
    let answer = path(table, variable, row, scratch);
    let mut writer = Writer::new(out);
    put_path(&mut writer, answer, row, scratch);
    writer.start()
}

// Bills an order of these sizes and makes the text of the answer. It stands in `out` from the place answered up to the
// end.
pub fn bill_text(sizes: &[u32], shares: &mut [u32], out: &mut [u8; 2048]) -> usize
    ensures text_of { TextOf
        (billed.Bills sizes.now shares.old shares.new)
        (λ answer. answer_text (billed_text shares.new (length sizes.now)) answer [])
        out.old out.new result }
    ensures upper_bound { (result ≤ 2048) × (2048 ≤ length out.new) }
{
    let answer = bill(sizes, shares);
    let mut writer = Writer::new(out);
    put_billed(&mut writer, answer, sizes.len(), shares);
    writer.start()
}

// Trims a table for a program that reads the trimmed table's own bytes. A refusal's line stands in `line` from the
// place answered up to the end.
pub fn trim_bytes(
    table: &[u8],
    certificate: &[u8],
    kept: &[u16],
    trimmed: &mut [u8],
    numbers: &mut [u16],
    scratch: &mut [u16],
    line: &mut [u8; 64],
) -> Result<usize, usize>
    ensures bytes_of { BytesOf
        (Promises (trims.trimming certificate.now kept.now)
        (trims.lent table.now trimmed.old numbers.old scratch.old)
        (trims.left trimmed.new numbers.new scratch.new))
        written_bytes line.old line.new result }
    ensures within { Within result (length trimmed.new) 64 × Within result (length numbers.new * 16) 64
        × (64 ≤ length line.new) }
{
    let answer = trim(table, certificate, kept, trimmed, numbers, scratch);
    put_trimmed(line, answer)
}

// Makes the lines of the first n numbers, one a line. They stand in `out` from the place answered up to the end.
pub fn numbers_text(numbers: &[u16], n: usize, out: &mut [u8; 32768]) -> usize
    requires { (n ≤ 4096) × (n ≤ length numbers.now) }
    ensures out_after { out.new ≡ take result out.old ++ number_lines numbers.now n }
    ensures upper_bound { (result ≤ 32768) × (32768 ≤ length out.new) }
{
    let mut writer = Writer::new(out);
    writer.put_numbers(numbers, n);
    writer.start()
}
