//! Reads numbers: in decimal, without a sign or a leading zero, and within limits.
ghost use Rattle.std.specs.Prelude.{◌≡◌, ◌≤◌, IfSome};
ghost use Rattle.std.specs.List.{list_all};
ghost use Rattle.script_words.specs.Numbers.{is_digit, begins_well, is_decimal, number_in, of_16_bits, of_32_bits, of_64_bits, sequence};

fn is_digit(byte: u8) -> bool
    ensures { result ≡ is_digit byte }
{
    byte >= b'0' && byte <= b'9'
}

fn begins_well(word: &[u8]) -> bool
    ensures { result ≡ begins_well word.now }
{
    match word {
        [] => false,
        [_] => true,
        [first, _, ..] => *first != b'0',
    }
}

fn all_digits(word: &[u8]) -> bool
    ensures { result ≡ list_all is_digit word.now }
{
    word.iter().all(|byte| is_digit(*byte))
}

fn is_decimal(word: &[u8]) -> bool
    ensures { result ≡ is_decimal word.now }
{
    begins_well(word) && all_digits(word)
}

/// The number that a word says, where it is one from `least` to `most`.
#[tactic(auto, unfolding(crate::specs::Numbers::number_in))]
pub fn number_in(least: u64, most: u64, word: &[u8]) -> Option<u64>
    ensures exact { result ≡ number_in least most word.now }
    ensures most { IfSome result (λ n. n ≤ most) }
{
    if !is_decimal(word) {
        return None;
    }
    let Ok(text) = std::str::from_utf8(word) else {
        return None;
    };
    let Ok(number) = u64::from_str_radix(text, 10) else {
        return None;
    };
    if number < least || number > most {
        return None;
    }
    Some(number)
}

/// The same of at most 8 bits.
pub fn u8_in(least: u8, most: u8, word: &[u8]) -> Option<u8>
    ensures exact { result ≡ number_in least most word.now }
{
    let number = number_in(u64::from(least), u64::from(most), word)?;
    Some(number as u8)
}

/// The same of at most 32 bits.
pub fn u32_in(least: u32, most: u32, word: &[u8]) -> Option<u32>
    ensures exact { result ≡ number_in least most word.now }
{
    let number = number_in(u64::from(least), u64::from(most), word)?;
    Some(number as u32)
}

/// A number of 16 bits.
pub fn of_16_bits(word: &[u8]) -> Option<u16>
    ensures exact { result ≡ of_16_bits word.now }
{
    let number = number_in(0, 65535, word)?;
    Some(number as u16)
}

/// A number of 32 bits.
pub fn of_32_bits(word: &[u8]) -> Option<u32>
    ensures exact { result ≡ of_32_bits word.now }
{
    u32_in(0, u32::MAX, word)
}

/// A number of 64 bits.
pub fn of_64_bits(word: &[u8]) -> Option<u64>
    ensures exact { result ≡ of_64_bits word.now }
{
    number_in(0, u64::MAX, word)
}

/// A log's sequence, 1 to 4294967295.
pub fn sequence(word: &[u8]) -> Option<u32>
    ensures exact { result ≡ sequence word.now }
{
    u32_in(1, u32::MAX, word)
}
