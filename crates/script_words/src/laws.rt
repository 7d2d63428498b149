//! The law of words.
ghost use Rattle.std.specs.Prelude.{◌≡◌, ℕ, List, Some};
ghost use Rattle.script_words.specs.Words.{words_of, joined};

/// The words of a line with a space between each and the next are that line, so no two lines have the same words. It does
/// nothing.
pub fn words_join_to_their_line()
    ensures joined { (line : List ℕ) (words : List (List ℕ)) → words_of line ≡ Some words → joined words ≡ line }
{}
