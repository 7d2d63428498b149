//! Reads CACHE and EAGER behind the numbers of APPLY and REPLAY.
ghost use Rattle.std.specs.Prelude.{◌≡◌, IfSome, ◌≤◌};
ghost use Rattle.std.specs.Option.{option_map};
ghost use Rattle.script.specs.Settings.{workers, cache_of, eager_of, set, eager_then, settings_of};

use rl_value::Bytes;
use script_words::{is_word, u8_in, u32_in};

// What a statement holds where CACHE or EAGER is not given.
const DEFAULT_CACHE: u32 = 4096;

const DEFAULT_EAGER: u32 = 200;

/// What CACHE and EAGER say, and the words behind them.
#[derive(Clone, Copy, Debug)]
pub(crate) struct Settings<'a> {
    pub cache: u32,
    pub eager: u32,
    pub rest: &'a [Bytes],
}

/// How many preparers or appliers there are.
pub(crate) fn workers(word: &[u8]) -> Option<u8>
    ensures { result ≡ workers word.now }
{
    u8_in(1, 16, word)
}

fn cache_of(appliers: u8, word: &[u8]) -> Option<u32>
    ensures { result ≡ cache_of appliers word.now }
{
    u32_in(256 + 64 * u32::from(appliers), 65536, word)
}

fn eager_of(word: &[u8]) -> Option<u32>
    ensures { result ≡ eager_of word.now }
{
    u32_in(64, 10000, word)
}

#[tactic(auto, unfolding(crate::specs::Settings::eager_then))]
fn eager_then(cache: u32, words: &[Bytes]) -> Option<Settings<'_>>
    ensures { option_map (λ s. set s.cache s.eager s.rest.now) result ≡ eager_then cache words.now }
{
    match words {
        [word, eager, rest @ ..] => {
            if is_word(word.bytes(), b"EAGER") {
                let eager = eager_of(eager.bytes())?;
                return Some(Settings { cache, eager, rest });
            }
            Some(Settings {
                cache,
                eager: DEFAULT_EAGER,
                rest: words,
            })
        }
        _ => Some(Settings {
            cache,
            eager: DEFAULT_EAGER,
            rest: words,
        }),
    }
}

/// CACHE c, or nothing, and then EAGER e, or nothing.
#[tactic(auto, unfolding(crate::specs::Settings::settings_of))]
pub(crate) fn settings_of(appliers: u8, words: &[Bytes]) -> Option<Settings<'_>>
    ensures { option_map (λ s. set s.cache s.eager s.rest.now) result ≡ settings_of appliers words.now }
{
    match words {
        [word, cache, rest @ ..] => {
            if is_word(word.bytes(), b"CACHE") {
                let cache = cache_of(appliers, cache.bytes())?;
                return eager_then(cache, rest);
            }
            eager_then(DEFAULT_CACHE, words)
        }
        _ => Some(Settings {
            cache: DEFAULT_CACHE,
            eager: DEFAULT_EAGER,
            rest: words,
        }),
    }
}
