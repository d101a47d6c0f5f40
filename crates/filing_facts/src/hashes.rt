//! The hashes by which look-ups find facts.
ghost use Rattle.std.specs.Prelude.{◌≡◌, option_map};
ghost use Rattle.oim_fact.specs.Dims.{dims_view};
ghost use Rattle.filing_facts.specs.Hashes as hash;

use oim_fact::DimSet;
use std::hash::{DefaultHasher, Hasher};

/// Feeds a text in whole words.
#[tactic(auto, unfolding(crate::specs::Hashes::fed_text))]
fn feed_text(state: &mut DefaultHasher, text: &str)
    ensures { state.new ≡ hash.fed_with state.old (hash.fed_text text.now) }
{
    let bytes = text.as_bytes();
    let (whole, rest) = bytes.split_at(bytes.len() / 8 * 8);
    let mut last = [0xFF; 8];
    last[..rest.len()].copy_from_slice(rest);
    state.write(whole);
    state.write(&last);
}

/// Feeds a value, or that there is none.
#[tactic(auto, unfolding(crate::specs::Hashes::fed_value))]
fn feed_value(state: &mut DefaultHasher, value: Option<&str>)
    ensures { state.new ≡ hash.fed_with state.old (hash.fed_value (option_map (λ t. t.now) value.entry)) }
{
    match value {
        Some(text) => feed_text(state, text),
        None => state.write(&[0xFE; 8]),
    }
}

/// The hash of names with their values.
fn hash_of_pairs(pairs: &[(String, Option<String>)]) -> u64
    ensures { result ≡ hash.hash_of_dims (dims_view pairs.now) }
{
    let mut state = DefaultHasher::new();
    for (name, value) in pairs {
        feed_text(&mut state, name);
        feed_value(&mut state, value.as_deref());
    }
    state.finish()
}

/// The hash of a cell.
pub fn hash_of_dims(dims: &DimSet) -> u64
    ensures { result ≡ hash.hash_of_dims dims.now }
{
    hash_of_pairs(dims.pairs())
}

/// The hash of a concept with a period, or with none.
pub fn hash_of_period(concept: &str, period: Option<&str>) -> u64
    ensures { result ≡ hash.hash_of_period concept.now (option_map (λ t. t.now) period.entry) }
{
    let mut state = DefaultHasher::new();
    feed_text(&mut state, concept);
    feed_value(&mut state, period);
    state.finish()
}

/// The hash of a concept with any period.
pub fn hash_of_concept(concept: &str) -> u64
    ensures { result ≡ hash.hash_of_concept concept.now }
{
    let mut state = DefaultHasher::new();
    feed_text(&mut state, concept);
    state.finish()
}
