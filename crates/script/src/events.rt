//! Reads the events of a REPLAY.
ghost use Rattle.std.specs.Prelude.{◌≡◌, map, nat_le, ◌^◌};
ghost use Rattle.std.specs.List.{list_all};
ghost use Rattle.std.specs.Option.{option_map};
ghost use Rattle.rl_value.specs.Outcome.{all_of};
ghost use Rattle.rl_base.specs.Replay.{is_drain, is_repeat, event_count, drains_last, are_events};
ghost use Rattle.script_words.specs.Given.{Gives};
ghost use Rattle.script.specs.Events.{working_event, showing_event, query_named, query_event, event_of, times_of, item_of, events_of};

use rl_base::{Event, Events9};
use rl_value::Bytes;
use script_words::{WordsFault, behind_front, cut_at, is_word, name_of, u32_in};
use std::alloc::Global;

const STAR: u8 = b'*';

// How often all events of a list may be done together.
const MAX_DONE: u64 = 1 << 20;

fn working_event(word: &[u8]) -> Option<Event>
    ensures { result ≡ working_event word.now }
{
    if is_word(word, b"cut") {
        return Some(Event::Cut);
    }
    if is_word(word, b"prepare") {
        return Some(Event::Prepare);
    }
    if is_word(word, b"prepare:last") {
        return Some(Event::PrepareLast);
    }
    if is_word(word, b"build") {
        return Some(Event::Build);
    }
    if is_word(word, b"spill") {
        return Some(Event::Spill);
    }
    if is_word(word, b"take") {
        return Some(Event::Take);
    }
    if is_word(word, b"post") {
        return Some(Event::Post);
    }
    if is_word(word, b"apply") {
        return Some(Event::Apply);
    }
    None
}

fn showing_event(word: &[u8]) -> Option<Event>
    ensures { result ≡ showing_event word.now }
{
    if is_word(word, b"install") {
        return Some(Event::Install);
    }
    if is_word(word, b"tell") {
        return Some(Event::Tell);
    }
    if is_word(word, b"publish") {
        return Some(Event::Publish);
    }
    if is_word(word, b"mark") {
        return Some(Event::Mark);
    }
    if is_word(word, b"restart") {
        return Some(Event::Restart);
    }
    if is_word(word, b"drain") {
        return Some(Event::Drain);
    }
    None
}

fn query_named(name: &[u8]) -> Option<Event>
    ensures { result ≡ query_named name.now }
{
    let name = name_of(name)?;
    Some(Event::Query(name))
}

#[tactic(auto, unfolding(crate::specs::Events::query_event))]
fn query_event(word: &[u8]) -> Option<Event>
    ensures { result ≡ query_event word.now }
{
    query_named(behind_front(b"query:", word)?)
}

#[tactic(auto, unfolding(crate::specs::Events::event_of))]
fn event_of(word: &[u8]) -> Option<Event>
    ensures { result ≡ event_of word.now }
{
    if let Some(event) = working_event(word) {
        return Some(event);
    }
    if let Some(event) = showing_event(word) {
        return Some(event);
    }
    query_event(word)
}

fn times_of(word: Option<&[u8]>) -> Option<u32>
    ensures { result ≡ times_of (option_map (λ w. w.now) word.entry) }
{
    match word {
        None => Some(1),
        Some(word) => u32_in(1, 65536, word),
    }
}

// A word, with `*k` behind the event or without.
#[tactic(auto, unfolding(crate::specs::Events::item_of))]
fn item_of(word: &[u8]) -> Option<(Event, u32)>
    ensures { result ≡ item_of word.now }
{
    let (word, times) = cut_at(STAR, word);
    let event = event_of(word)?;
    let times = times_of(times)?;
    Some((event, times))
}

fn item_list(alloc: Global, words: &[Bytes]) -> Result<Vec<(Event, u32)>, WordsFault>
    ensures { Gives (λ items. items.items) result (all_of (map item_of words.now)) }
{
    let mut items = Vec::new(alloc);
    let mut rest = words;
    while let [word, others @ ..] = rest {
        let item = item_of(word.bytes()).ok_or(WordsFault::Grammar)?;
        items.push(item)?;
        rest = others;
    }
    Ok(items)
}

// ---- which items are events

fn is_repeat(item: &(Event, u32)) -> bool
    ensures { result ≡ is_repeat item.now.1 }
{
    item.1 >= 1 && item.1 <= 65536
}

fn are_repeats(items: &[(Event, u32)]) -> bool
    ensures { result ≡ list_all (λ e. is_repeat e.1) items.now }
{
    items.iter().all(|item| is_repeat(item))
}

fn times_done(item: &(Event, u32)) -> u32
    ensures { result ≡ item.now.1 }
{
    item.1
}

// Whether the events are few enough, each done as often as it is.
fn event_count_fits(items: &[(Event, u32)]) -> bool
    ensures { result ≡ nat_le (event_count items.now) (2 ^ 20) }
{
    let mut done = 0u64;
    let mut rest = items;
    while let [item, others @ ..] = rest {
        done = done + u64::from(times_done(item));
        if done > MAX_DONE {
            return false;
        }
        rest = others;
    }
    true
}

fn is_drain(event: &Event) -> bool
    ensures { result ≡ is_drain event.now }
{
    match event {
        Event::Drain => true,
        Event::Cut => false,
        Event::Prepare => false,
        Event::PrepareLast => false,
        Event::Build => false,
        Event::Spill => false,
        Event::Take => false,
        Event::Post => false,
        Event::Apply => false,
        Event::Install => false,
        Event::Tell => false,
        Event::Publish => false,
        Event::Mark => false,
        Event::Query(_) => false,
        Event::Restart => false,
    }
}

fn drains_last(items: &[(Event, u32)]) -> bool
    ensures { result ≡ drains_last items.now }
{
    let mut rest = items;
    while let [item, others @ ..] = rest {
        if is_drain(&item.0) && !(others.is_empty() && item.1 == 1) {
            return false;
        }
        rest = others;
    }
    true
}

fn are_events(items: &[(Event, u32)]) -> bool
    ensures { result ≡ are_events items.now }
{
    are_repeats(items) && event_count_fits(items) && drains_last(items)
}

/// The events of one or more words.
#[tactic(auto, unfolding(crate::specs::Events::events_of))]
pub(crate) fn events_of(alloc: Global, words: &[Bytes]) -> Result<Events9, WordsFault>
    ensures { Gives (λ x. x) result (events_of words.now) }
{
    let items = item_list(alloc, words)?;
    if items.is_empty() {
        return Err(WordsFault::Grammar);
    }
    if !are_events(items.as_slice()) {
        return Err(WordsFault::Grammar);
    }
    Ok(Events9::of(items))
}
