// A buffer that text is put into from its end down: a byte, a word or a number, and the lines of what the programs
// print, each before what stands there.
ghost use Rattle.std.specs.Prelude.{◌≡◌, [], ◌∷◌, ◌+◌, ◌-◌, ◌*◌, ◌≤◌, ◌<◌, length};
ghost use Rattle.text.specs.Text.{decimal, refusal_line, refusal_text, pieces, spaced, row_line};
ghost use Rattle.text.specs.Text.{fact_text, fact_line, fact_lines, value_line, value_lines, number_line, number_lines};
ghost use Rattle.text.specs.Prints.{ShowsRow};

use circuit::refusal::{Ground, Refusal, ground_number};
use fact::Fact;
use fact::cell::load;

#[derive(Drop)]
pub struct Writer<'a> {
    out: &'a mut [u8],
    // The text begins here.
    at: usize,

    ghost within: { at ≤ length out.now },
}

impl<'a> Writer<'a> {
    ghost use Rattle.text.specs.Writer.{Puts};

    // One with no text yet.
    pub fn new(out: &'a mut [u8]) -> Writer<'a>
        ensures same_reference { result.out.ghost_name ≡ out.entry.ghost_name }
        ensures out { result.out.now ≡ out.old }
        ensures at { result.at ≡ length out.old }
    {
        let at = out.len();
        Writer { out, at }
    }

    // Where the text begins. It goes up to the buffer's end.
    pub fn start(&self) -> usize
        ensures { result ≡ self.now.at }
    {
        self.at
    }

    pub fn put_byte(&mut self, b: u8)
        requires { 1 ≤ self.old.at }
        ensures { Puts (b ∷ []) self.old self.new }
    {
        self.at -= 1;
        self.out[self.at] = b;
    }

    pub fn put_word(&mut self, word: &[u8])
        requires { length word.now ≤ self.old.at }
        ensures { Puts word.now self.old self.new }
    {
        let end = self.at;
        self.at -= word.len();
        self.out[self.at..end].copy_from_slice(word);
    }

    // In base ten.
    pub fn put_number(&mut self, n: u64)
        requires { length (decimal n) ≤ self.old.at }
        ensures { Puts (decimal n) self.old self.new }
    {
        let mut rest = n;
        // No `for`: how many digits there are shows as they are put.
        while rest >= 10 {
            self.put_byte(b'0' + (rest % 10) as u8);
            rest /= 10;
        }
        self.put_byte(b'0' + rest as u8);
    }

    pub fn put_refusal(&mut self, refusal: Refusal)
        requires { 53 ≤ self.old.at }
        ensures { Puts (refusal_line refusal.reason refusal.place) self.old self.new }
    {
        self.put_byte(b'\n');
        self.put_number(refusal.place as u64);
        self.put_word(b" at ");
        self.put_number(ground_number(refusal.reason));
        self.put_word(b"refused ");
    }

    // A refusal's line and, for ground 11, the line of the loop that the scratch shows.
    pub fn put_refused(&mut self, refusal: Refusal, scratch: &[u16])
        requires in_bounds { 24630 ≤ self.old.at }
        requires shows_row { ShowsRow refusal.reason refusal.place (length scratch.now) }
        ensures { Puts (refusal_text refusal.reason refusal.place scratch.now) self.old self.new }
    {
        if refusal.reason == Ground::Loop {
            self.put_row(scratch, refusal.place);
        }
        self.put_refusal(refusal);
    }

    // The numbers of a row from number 1 on, each with a space before it.
    fn put_spaced(&mut self, row: &[u16], size: usize)
        requires { (1 ≤ size) × (size ≤ length row.now) × ((size - 1) * 6 ≤ self.old.at) }
        ensures put { Puts (pieces (spaced row.now) (size - 1) 1) self.old self.new }
        ensures at_bound { self.old.at ≤ self.new.at + (size - 1) * 6 }
    {
        for i in (1..size).rev() {
            self.put_number(u64::from(row[i]));
            self.put_byte(b' ');
        }
    }

    // The line of a loop or a path, whose numbers stand in front.
    pub fn put_row(&mut self, row: &[u16], size: usize)
        requires { (1 ≤ size) × (size ≤ length row.now) × (size * 6 + 1 ≤ self.old.at) }
        ensures put { Puts (row_line row.now size) self.old self.new }
        ensures at_bound { self.old.at ≤ self.new.at + size * 6 }
    {
        self.put_byte(b'\n');
        self.put_spaced(row, size);
        self.put_number(u64::from(row[0]));
    }

    fn put_fact(&mut self, fact: Fact)
        requires { 18 ≤ self.old.at }
        ensures put { Puts (fact_text fact) self.old self.new }
        ensures at_bound { self.old.at ≤ self.new.at + 18 }
    {
        match fact {
            Fact::Always(n) => {
                self.put_number(u64::from(n));
                self.put_word(b" always ");
            }
            Fact::Open => self.put_word(b" open"),
            Fact::Marked => self.put_word(b" marked"),
        }
    }

    fn put_fact_line(&mut self, v: usize, fact: Fact)
        requires { (v < 4096) × (23 ≤ self.old.at) }
        ensures put { Puts (fact_line v fact) self.old self.new }
        ensures at_bound { self.old.at ≤ self.new.at + 23 }
    {
        self.put_byte(b'\n');
        self.put_fact(fact);
        self.put_number(v as u64);
    }

    // The lines of n variables, from a certificate's bytes.
    pub fn put_facts(&mut self, certificate: &[u8], n: usize)
        requires { (n ≤ 4096) × (n * 8 ≤ length certificate.now) × (n * 23 ≤ self.old.at) }
        ensures put { Puts (fact_lines certificate.now n) self.old self.new }
        ensures at_bound { self.old.at ≤ self.new.at + n * 23 }
    {
        for v in (0..n).rev() {
            self.put_fact_line(v, load(certificate, v));
        }
    }

    fn put_value_line(&mut self, v: usize, x: u32)
        requires { (v < 4096) × (16 ≤ self.old.at) }
        ensures put { Puts (value_line v x) self.old self.new }
        ensures at_bound { self.old.at ≤ self.new.at + 16 }
    {
        self.put_byte(b'\n');
        self.put_number(u64::from(x));
        self.put_byte(b' ');
        self.put_number(v as u64);
    }

    // The lines of n numbers: the values that a bench run writes, or the shares of an order.
    pub fn put_values(&mut self, values: &[u32], n: usize)
        requires { (n ≤ 4096) × (n ≤ length values.now) × (n * 16 ≤ self.old.at) }
        ensures put { Puts (value_lines values.now n) self.old self.new }
        ensures at_bound { self.old.at ≤ self.new.at + n * 16 }
    {
        for v in (0..n).rev() {
            self.put_value_line(v, values[v]);
        }
    }

    // A number with a word before it.
    pub fn put_number_line(&mut self, word: &[u8], k: u32)
        requires { (length word.now ≤ 7) × (18 ≤ self.old.at) }
        ensures { Puts (number_line word.now k) self.old self.new }
    {
        self.put_byte(b'\n');
        self.put_number(u64::from(k));
        self.put_word(word);
    }

    // The lines of n numbers, one a line: the old numbers of a trimmed table's records.
    pub fn put_numbers(&mut self, numbers: &[u16], n: usize)
        requires { (n ≤ length numbers.now) × (n * 6 ≤ self.old.at) }
        ensures { Puts (number_lines numbers.now n) self.old self.new }
    {
        for i in (0..n).rev() {
            self.put_byte(b'\n');
            self.put_number(u64::from(numbers[i]));
        }
    }
}
