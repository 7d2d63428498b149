//! Cuts a line into words. One space stands between two of them, and a quoted text is one (specs/Words.antt).
ghost use Rattle.std.specs.Prelude.{◌≡◌, ◌++◌, ◌∷◌, [], OnOk};
ghost use Rattle.rl_value.specs.Order.{same_bytes};
ghost use Rattle.script_words.specs.Given.{Gives};
ghost use Rattle.script_words.specs.Words.{place_behind, may_end, is_begin, words_of};

use crate::fault::WordsFault;
use rl_value::{Bytes, NoMemory};
use std::alloc::Global;

const SPACE: u8 = b' ';

const QUOTE: u8 = b'\'';

/// Where the next byte of a line stands.
#[derive(Clone, Copy, Debug, PartialEq, Eq)]
pub(crate) enum Place {
    /// At the beginning of a word.
    Begin,
    /// In a word that is no quoted text.
    Bare,
    /// In a quoted text.
    Quoted,
    /// Behind a quote that closes the text or is the first of two.
    Closed,
    /// Where no word can be.
    Nowhere,
}

fn from_begin(byte: u8) -> Place
    ensures { result ≡ place_behind Place.Begin byte }
{
    if byte == SPACE {
        return Place::Nowhere;
    }
    if byte == QUOTE {
        Place::Quoted
    } else {
        Place::Bare
    }
}

fn from_bare(byte: u8) -> Place
    ensures { result ≡ place_behind Place.Bare byte }
{
    if byte == SPACE {
        Place::Begin
    } else {
        Place::Bare
    }
}

fn from_quoted(byte: u8) -> Place
    ensures { result ≡ place_behind Place.Quoted byte }
{
    if byte == QUOTE {
        Place::Closed
    } else {
        Place::Quoted
    }
}

fn from_closed(byte: u8) -> Place
    ensures { result ≡ place_behind Place.Closed byte }
{
    if byte == SPACE {
        return Place::Begin;
    }
    if byte == QUOTE {
        Place::Quoted
    } else {
        Place::Nowhere
    }
}

// Where the byte behind this one stands.
fn place_behind(place: Place, byte: u8) -> Place
    ensures { result ≡ place_behind place byte }
{
    match place {
        Place::Begin => from_begin(byte),
        Place::Bare => from_bare(byte),
        Place::Quoted => from_quoted(byte),
        Place::Closed => from_closed(byte),
        Place::Nowhere => Place::Nowhere,
    }
}

fn may_end(place: Place) -> bool
    ensures { result ≡ may_end place }
{
    match place {
        Place::Bare => true,
        Place::Closed => true,
        Place::Begin => false,
        Place::Quoted => false,
        Place::Nowhere => false,
    }
}

fn is_begin(place: Place) -> bool
    ensures { result ≡ is_begin place }
{
    match place {
        Place::Begin => true,
        Place::Bare => false,
        Place::Quoted => false,
        Place::Closed => false,
        Place::Nowhere => false,
    }
}

fn push_byte(word: &mut Vec<u8>, byte: u8) -> Result<(), NoMemory>
    ensures { OnOk result (word.new.items ≡ word.old.items ++ byte ∷ []) }
{
    match word.push(byte) {
        Ok(()) => Ok(()),
        Err(_) => Err(NoMemory),
    }
}

fn push_word(words: &mut Vec<Bytes>, word: Vec<u8>) -> Result<(), NoMemory>
    ensures { OnOk result (words.new.items ≡ words.old.items ++ word.items ∷ []) }
{
    match words.push(Bytes::of(word)) {
        Ok(()) => Ok(()),
        Err(_) => Err(NoMemory),
    }
}

/// The words of a line, which is given without its end.
#[tactic(auto, unfolding(crate::specs::Words::words_of))]
pub fn words_of(alloc: Global, line: &[u8]) -> Result<Vec<Bytes>, WordsFault>
    ensures exact { Gives (λ words. words.items) result (words_of line.now) }
{
    let mut words = Vec::new(alloc);
    let mut word = Vec::new(alloc);
    let mut place = Place::Begin;
    let mut rest = line;
    while let [byte, others @ ..] = rest {
        place = place_behind(place, *byte);
        if is_begin(place) {
            push_word(&mut words, word)?;
            word = Vec::new(alloc);
        } else {
            push_byte(&mut word, *byte)?;
        }
        rest = others;
    }
    if !may_end(place) {
        return Err(WordsFault::Grammar);
    }
    push_word(&mut words, word)?;
    Ok(words)
}

/// Whether a word is this one.
pub fn is_word(word: &[u8], other: &[u8]) -> bool
    ensures exact { result ≡ same_bytes word.now other.now }
{
    word == other
}
