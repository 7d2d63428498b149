//! The words of the command line, as bytes: they need not be text.
use rl_value::Bytes;
use std::alloc::{AllocError, Global};
use std::env::{Env, FillError};

// Bytes that are tried first for a word.
const SHORT: usize = 64;

// What so many bytes take of the word at an index: all of it, or not, or there is no word.
enum Word {
    Whole(Vec<u8>),
    Longer,
    Absent,
}

fn word_within<E: Env>(
    env: &E,
    alloc: Global,
    place: usize,
    most: usize,
) -> Result<Word, AllocError> {
    let mut bytes = vec![in alloc; 0u8; most]?;
    match env.arg(place, bytes.as_mut_slice()) {
        Ok(count) => {
            bytes.truncate(count);
            Ok(Word::Whole(bytes))
        }
        Err(FillError::TooLong) => Ok(Word::Longer),
        Err(FillError::NotPresent) => Ok(Word::Absent),
    }
}

// The word at this index, if there is one.
fn word_at<E: Env>(env: &E, alloc: Global, place: usize) -> Result<Option<Bytes>, AllocError> {
    let mut most = SHORT;
    for _ in 0..usize::BITS {
        match word_within(env, alloc, place, most)? {
            Word::Whole(bytes) => return Ok(Some(Bytes::of(bytes))),
            Word::Longer => most = most.saturating_mul(2),
            Word::Absent => return Ok(None),
        }
    }
    Err(AllocError)
}

/// The words behind the program's name.
pub fn words_of<E: Env>(env: &E, alloc: Global) -> Result<Vec<Bytes>, AllocError> {
    let mut words = Vec::new(alloc);
    for place in 1..usize::MAX {
        match word_at(env, alloc, place)? {
            Some(word) => words.push(word)?,
            None => break,
        }
    }
    Ok(words)
}
