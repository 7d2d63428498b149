//! Matching a text with a pattern, in about as many steps as the product of their lengths at most.
//!
//! Bytes are compared from the left up to a `%`. From there on the part up to the next `%` is tried at each place of the
//! text in turn. Where it has found its first place, an earlier `%` is not tried further: what a later place would leave
//! of the text, this one leaves too, with more before it.
ghost use Rattle.std.specs.Prelude.{◌≡◌, ◌||◌, ◌==◌};
ghost use Rattle.redo_spec.specs.Skips.{matches};
ghost use Rattle.skip_guard.specs.Comparing.{comparison_of, found_of, matches_end, IsRight};

/// How far a pattern was compared with a text from their beginnings.
#[derive(Drop)]
pub enum Compared<'a> {
    /// To the end, or to a byte that differs; whether they match.
    Ended(bool),
    /// To a `%`: what is left of the pattern behind it, and of the text.
    Any(&'a [u8], &'a [u8]),
}

// The byte of a pattern, which is no `%`, stands for the byte of a text.
fn stands_for(byte: u8, found: u8) -> bool
    ensures { result ≡ ((byte == 95) || (byte == found)) }
{
    byte == b'_' || byte == found
}

// The bytes one after another, as specs/Comparing.antt has it.
fn up_to_any<'a>(pattern: &'a [u8], text: &'a [u8]) -> Compared<'a>
    ensures { found_of result ≡ comparison_of pattern.now text.now }
{
    let mut pattern_left = pattern;
    let mut text_left = text;
    while let [byte, others @ ..] = pattern_left {
        if *byte == b'%' {
            return Compared::Any(others, text_left);
        }
        let [found, more @ ..] = text_left else {
            return Compared::Ended(false);
        };
        if !stands_for(*byte, *found) {
            return Compared::Ended(false);
        }
        pattern_left = others;
        text_left = more;
    }
    Compared::Ended(text_left.is_empty())
}

// Compares from the left up to a `%`.
fn compare<'a>(pattern: &'a [u8], text: &'a [u8]) -> Compared<'a>
    ensures { IsRight pattern.now text.now (found_of result) }
{
    up_to_any(pattern, text)
}

// The pattern matches an end of the text, which may be the whole text or nothing.
fn end_matches(pattern: &[u8], text: &[u8]) -> bool
    ensures { result ≡ matches_end pattern.now text.now }
{
    let mut pattern_left = pattern;
    let mut text_left = text;
    while !pattern_left.is_empty() {
        match compare(pattern_left, text_left) {
            Compared::Ended(true) => return true,
            Compared::Ended(false) => match text_left {
                [] => return false,
                [_, more @ ..] => text_left = more,
            },
            Compared::Any(others, more) => {
                pattern_left = others;
                text_left = more;
            }
        }
    }
    true
}

/// Whether the pattern matches the text as a whole.
pub fn text_matches(pattern: &[u8], text: &[u8]) -> bool
    ensures { result ≡ matches pattern.now text.now }
{
    match compare(pattern, text) {
        Compared::Ended(found) => found,
        Compared::Any(others, more) => end_matches(others, more),
    }
}
