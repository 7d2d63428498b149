//! Reads the parts of a word: what stands before and behind a mark, names, and transaction ids.
ghost use Rattle.std.specs.Prelude.{◌≡◌};
ghost use Rattle.std.specs.Option.{option_map};
ghost use Rattle.script_words.specs.Parts.{before, behind, behind_front, name_of, xid_of_parts, xid_of};

use crate::numbers::{of_16_bits, of_32_bits};
use rl_value::{Name, Xid};

const DOT: u8 = b'.';

/// The bytes before the first `mark` of a word, and those behind it; all and None where there is no such byte.
pub fn cut_at(mark: u8, word: &[u8]) -> (&[u8], Option<&[u8]>)
    ensures before { result.0.now ≡ before mark word.now }
    ensures behind { option_map (λ rest. rest.now) result.1 ≡ behind mark word.now }
{
    for (at, byte) in word.iter().enumerate() {
        if *byte == mark {
            return (&word[..at], Some(&word[at + 1..]));
        }
    }
    (word, None)
}

/// What is left behind `front`, where the word begins with it.
pub fn behind_front<'a>(front: &[u8], word: &'a [u8]) -> Option<&'a [u8]>
    ensures exact { option_map (λ rest. rest.now) result ≡ behind_front front.now word.now }
{
    match front {
        [] => Some(word),
        [first, fronts @ ..] => match word {
            [] => None,
            [byte, bytes @ ..] => {
                if *first != *byte {
                    return None;
                }
                behind_front(fronts, bytes)
            }
        },
    }
}

/// The name that a word is. It takes no memory.
pub fn name_of(word: &[u8]) -> Option<Name>
    ensures exact { result ≡ name_of word.now }
{
    match Name::of(word) {
        Some(name) => Some(name),
        None => None,
    }
}

#[tactic(auto, unfolding(crate::specs::Parts::xid_of_parts))]
fn xid_of_parts(usn: &[u8], slot: &[u8], sqn: Option<&[u8]>) -> Option<Xid>
    ensures { result ≡ xid_of_parts usn.now slot.now (option_map (λ word. word.now) sqn.entry) }
{
    let sqn = sqn?;
    let usn = of_16_bits(usn)?;
    let slot = of_16_bits(slot)?;
    let sqn = of_32_bits(sqn)?;
    Some(Xid { usn, slot, sqn })
}

/// A transaction id: undo segment, slot and sequence with dots between.
#[tactic(auto, unfolding(crate::specs::Parts::xid_of))]
pub fn xid_of(word: &[u8]) -> Option<Xid>
    ensures exact { result ≡ xid_of word.now }
{
    let (usn, rest) = cut_at(DOT, word);
    let (slot, sqn) = cut_at(DOT, rest?);
    xid_of_parts(usn, slot, sqn)
}
