//! The lines of a text before its first record, and how far its records have come.
//!
//! LOG stands first. DBID has to be there before the first record; FIRST and NEXT are those of the records where they are left
//! out.
ghost use Rattle.std.specs.Prelude.{◌≡◌, ◌+◌, ◌≤◌, ◌==◌, ◌||◌, if◌then◌else◌, Ok, Err, IfOk};
ghost use Rattle.rl_value.specs.Order.{same_bytes};
ghost use Rattle.redo_text.specs.Heading.{no_heading, number_alone, given_once, heading_line, behind_log, heading_said, is_heading_word, number_or, scn_after, scn_said, greater, begun_after, next_of, number_there, header_said};

use redo_lines::{LineFault, is_word, number_of};
use redo_spec::Header;
use rl_value::Bytes;

/// What the heading has said so far.
#[derive(Clone, Copy, Debug, PartialEq, Eq)]
pub struct Heading {
    /// The log sequence number.
    pub seq: Option<u32>,
    /// The database's id.
    pub dbid: Option<u32>,
    /// The least SCN that a record may have.
    pub first: Option<u64>,
    /// The SCN above those of all records.
    pub next: Option<u64>,
}

/// How far the records have come, from the first one on.
#[derive(Clone, Copy, Debug, PartialEq, Eq)]
pub struct Begun {
    /// How many there are.
    pub count: u32,
    /// The SCN of the last one.
    pub scn: u64,
    /// The SCN of the first one.
    pub first: u64,
    /// The greatest SCN among them.
    pub greatest: u64,
}

pub(crate) fn no_heading() -> Heading
    ensures { result ≡ no_heading }
{
    Heading {
        seq: None,
        dbid: None,
        first: None,
        next: None,
    }
}

#[tactic(auto, unfolding(crate::specs::Heading::number_alone))]
fn number_alone(most: u64, words: &[Bytes]) -> Result<u64, LineFault>
    ensures exact { result ≡ number_alone most words.now }
    ensures most { IfOk result (λ n. n ≤ most) }
{
    match words {
        [] => Err(LineFault::Words),
        [word, others @ ..] => {
            let number = number_of(most, word.bytes())?;
            if !others.is_empty() {
                return Err(LineFault::Words);
            }
            Ok(number)
        }
    }
}

#[tactic(auto, unfolding(crate::specs::Heading::given_once))]
fn once32(given: Option<u32>, words: &[Bytes]) -> Result<Option<u32>, LineFault>
    ensures { result ≡ given_once 4294967295 given words.now }
{
    if given.is_some() {
        return Err(LineFault::Twice);
    }
    let number = number_alone(4294967295, words)?;
    Ok(Some(number as u32))
}

#[tactic(auto, unfolding(crate::specs::Heading::given_once))]
fn once64(given: Option<u64>, words: &[Bytes]) -> Result<Option<u64>, LineFault>
    ensures { result ≡ given_once 18446744073709551615 given words.now }
{
    if given.is_some() {
        return Err(LineFault::Twice);
    }
    let number = number_alone(18446744073709551615, words)?;
    Ok(Some(number))
}

#[tactic(auto, unfolding(crate::specs::Heading::heading_line))]
fn heading_line(heading: Heading, keyword: &[u8], words: &[Bytes]) -> Result<Heading, LineFault>
    ensures { result ≡ heading_line heading keyword.now words.now }
{
    if is_word(keyword, b"DBID") {
        let dbid = once32(heading.dbid, words)?;
        return Ok(Heading {
            seq: heading.seq,
            dbid,
            first: heading.first,
            next: heading.next,
        });
    }
    if is_word(keyword, b"FIRST") {
        let first = once64(heading.first, words)?;
        return Ok(Heading {
            seq: heading.seq,
            dbid: heading.dbid,
            first,
            next: heading.next,
        });
    }
    if is_word(keyword, b"NEXT") {
        let next = once64(heading.next, words)?;
        return Ok(Heading {
            seq: heading.seq,
            dbid: heading.dbid,
            first: heading.first,
            next,
        });
    }
    Err(LineFault::Order)
}

/// The heading after one more line.
#[tactic(auto, unfolding(crate::specs::Heading::heading_said))]
pub(crate) fn heading_of(
    heading: Heading,
    keyword: &[u8],
    words: &[Bytes],
) -> Result<Heading, LineFault>
    ensures { result ≡ heading_said heading keyword.now words.now }
{
    if is_word(keyword, b"LOG") {
        let seq = once32(heading.seq, words)?;
        return Ok(Heading {
            seq,
            dbid: heading.dbid,
            first: heading.first,
            next: heading.next,
        });
    }
    match heading.seq {
        None => Err(LineFault::Order),
        Some(_) => heading_line(heading, keyword, words),
    }
}

pub(crate) fn is_heading_word(keyword: &[u8]) -> bool
    ensures { result ≡ is_heading_word keyword.now }
{
    is_word(keyword, b"LOG")
        || is_word(keyword, b"DBID")
        || is_word(keyword, b"FIRST")
        || is_word(keyword, b"NEXT")
}

// One above the record before.
fn scn_after(heading: Heading, begun: Option<Begun>) -> Result<u64, LineFault>
    ensures { result ≡ scn_after heading begun }
{
    match begun {
        None => Ok(number_or(1, heading.first)),
        Some(begun) => above(begun.scn),
    }
}

fn above(scn: u64) -> Result<u64, LineFault>
    ensures { result ≡ (if scn == 18446744073709551615 then Err LineFault.Number else Ok (scn + 1)) }
{
    if scn == u64::MAX {
        return Err(LineFault::Number);
    }
    Ok(scn + 1)
}

fn number_or(otherwise: u64, given: Option<u64>) -> u64
    ensures { result ≡ number_or otherwise given }
{
    match given {
        None => otherwise,
        Some(number) => number,
    }
}

/// The SCN of a record, by the words behind RECORD.
#[tactic(auto, unfolding(crate::specs::Heading::scn_said))]
pub(crate) fn scn_of(
    heading: Heading,
    begun: Option<Begun>,
    words: &[Bytes],
) -> Result<u64, LineFault>
    ensures { result ≡ scn_said heading begun words.now }
{
    match words {
        [] => scn_after(heading, begun),
        [_, ..] => number_alone(18446744073709551615, words),
    }
}

fn greater(a: u64, b: u64) -> u64
    ensures { result ≡ greater a b }
{
    if a < b { b } else { a }
}

/// One record more.
#[tactic(auto, unfolding(crate::specs::Heading::begun_after))]
pub(crate) fn begun_after(begun: Option<Begun>, scn: u64) -> Result<Begun, LineFault>
    ensures { result ≡ begun_after begun scn }
{
    match begun {
        None => Ok(Begun {
            count: 1,
            scn,
            first: scn,
            greatest: scn,
        }),
        Some(begun) => {
            if begun.count == u32::MAX {
                return Err(LineFault::Many);
            }
            Ok(Begun {
                count: begun.count + 1,
                scn,
                first: begun.first,
                greatest: greater(begun.greatest, scn),
            })
        }
    }
}

fn next_of(given: Option<u64>, begun: Begun) -> Result<u64, LineFault>
    ensures { result ≡ next_of given begun }
{
    match given {
        Some(next) => Ok(next),
        None => above(begun.greatest),
    }
}

pub(crate) fn number_there(given: Option<u32>) -> Result<u32, LineFault>
    ensures { result ≡ number_there given }
{
    match given {
        None => Err(LineFault::Order),
        Some(number) => Ok(number),
    }
}

/// The header of the log, when all of its records have come.
#[tactic(auto, unfolding(crate::specs::Heading::header_said))]
pub(crate) fn header_of(heading: Heading, begun: Begun) -> Result<Header, LineFault>
    ensures { result ≡ header_said heading begun }
{
    let seq = number_there(heading.seq)?;
    let dbid = number_there(heading.dbid)?;
    let next = next_of(heading.next, begun)?;
    Ok(Header {
        seq,
        dbid,
        first: number_or(begun.first, heading.first),
        next,
        count: begun.count,
    })
}
