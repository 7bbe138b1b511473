// A number in base ten, read from a word.
ghost use Rattle.std.specs.Prelude.{◌≡◌, ◌<◌, ◌^◌, true, SomeIff};
ghost use Rattle.std.specs.List.{list_all};
ghost use Rattle.text.specs.Words.{is_digit, value, read_number};

// A word is no number, or one that needs more than 32 bits.
#[derive(Clone, Copy, Debug, PartialEq, Eq)]
pub enum NumberError {
    NoNumber,
    TooWide,
}

fn all_digits(word: &[u8]) -> bool
    ensures { result ≡ list_all is_digit word.now }
{
    word.iter().all(u8::is_ascii_digit)
}

// The number that a row of digits stands for, where it needs at most 32 bits.
#[tactic(auto, using(crate::proofs::Words::digits_fit, crate::proofs::Words::value_digit, crate::proofs::Words::value_whole))]
fn read_digits(word: &[u8]) -> Option<u32>
    requires { list_all is_digit word.now ≡ true }
    ensures { SomeIff result (value 0 word.now < 2 ^ 32) (value 0 word.now) }
{
    let mut n: u32 = 0;
    for digit in word {
        n = n.checked_mul(10)?.checked_add(u32::from(digit - b'0'))?;
    }
    Some(n)
}

pub fn read_number(word: &[u8]) -> Result<u32, NumberError>
    ensures { result ≡ read_number word.now }
{
    if word.is_empty() || !all_digits(word) {
        return Err(NumberError::NoNumber);
    }
    read_digits(word).ok_or(NumberError::TooWide)
}
