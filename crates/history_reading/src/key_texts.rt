//! The keys and byte strings of a scene, found by how they are spelled.
ghost use Rattle.history_reading.specs.Places.{ArePlaces, byte_texts, key_texts, place_in};
ghost use Rattle.std.specs.Prelude.{IfOk, ◌≡◌};

use crate::places::Places;
use std::alloc::{AllocError, Global};
use str_base::{KeyId, TextId};
use str_scene::KeyTable;

/// Where each key and each byte string of a table stands in it, by its text.
#[derive(Drop)]
pub struct KeyTexts {
    pub keys: Places,
    pub texts: Places,
}

/// Where each key of a table stands.
fn key_places(alloc: Global, table: &KeyTable) -> Result<Places, AllocError>
    ensures { IfOk result (λ p. ArePlaces (key_texts table.now) p) }
{
    let mut places = Places::new(alloc);
    for number in 0..table.len() {
        let mut text = Vec::new(alloc);
        table.push_key(KeyId(number), &mut text)?;
        places.put(text, number)?;
    }
    Ok(places)
}

/// Where each byte string of a table stands.
fn byte_places(alloc: Global, table: &KeyTable) -> Result<Places, AllocError>
    ensures { IfOk result (λ p. ArePlaces (byte_texts table.now) p) }
{
    let mut places = Places::new(alloc);
    for number in 0..table.texts() {
        let mut text = Vec::new(alloc);
        table.push_text(TextId(number), &mut text)?;
        places.put(text, number)?;
    }
    Ok(places)
}

impl KeyTexts {
    /// Those of a table.
    pub fn of(alloc: Global, table: &KeyTable) -> Result<KeyTexts, AllocError>
        ensures keys { IfOk result (λ t. ArePlaces (key_texts table.now) t.keys) }
        ensures texts { IfOk result (λ t. ArePlaces (byte_texts table.now) t.texts) }
    {
        let keys = key_places(alloc, table)?;
        let texts = byte_places(alloc, table)?;
        Ok(KeyTexts { keys, texts })
    }
}
