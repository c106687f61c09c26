//! The gets of an answer's line.
ghost use Rattle.history_reading.specs.Parts.{IsAfterWord, SpellsGet, SpellsGets, SpellsKnownKey, SpellsNoGet, SpellsNoGets, SpellsNoValue, SpellsValue, kept_gets, with_get};
ghost use Rattle.history_reading.specs.Places.{ArePlaces, byte_texts, key_texts};
ghost use Rattle.scene_text.specs.LineReading.{SpellsNoBytes, SpellsNoKey, is_without};
ghost use Rattle.std.specs.Prelude.{IfOk, IfSome, IsNone, OnOk, [], length, true, ◌++◌, ◌≡◌, ◌≤◌};

use crate::key_texts::KeyTexts;
use scene_text::keys::{read_bytes, read_key};
use scene_text::numbers::read_signed;
use scene_text::parting::{is_same, rest_after, split_at_byte};
use std::alloc::{AllocError, Global};
use str_base::{KeyId, TextId, Value};
use str_model::{Gets, Got};
use str_scene::Scene;

/// A key, which is kept where it is one of the scene.
pub fn read_known_key(scene: &Scene, keys: &KeyTexts, text: &[u8]) -> Option<Option<KeyId>>
    requires { ArePlaces (key_texts scene.now.keys) keys.now.keys }
    ensures key { IfSome result (λ kept. SpellsKnownKey scene.now.keys text.now kept) }
    ensures none { IsNone result → SpellsNoKey text.now }
{
    let _table = scene.keys();
    let _key = read_key(text)?;
    match keys.keys.find(text) {
        Some(key) => Some(Some(KeyId(key))),
        None => Some(None),
    }
}

/// A byte string as a value, which is kept where it is one of the scene.
fn read_known_bytes(scene: &Scene, keys: &KeyTexts, text: &[u8]) -> Option<Option<Value>>
    requires { ArePlaces (byte_texts scene.now.keys) keys.now.texts }
    ensures value { IfSome result (λ kept. SpellsValue scene.now.keys text.now kept) }
    ensures none { IsNone result → SpellsNoBytes text.now }
{
    let _table = scene.keys();
    let _bytes = read_bytes(text)?;
    match keys.texts.find(text) {
        Some(text) => Some(Some(Value::Text(TextId(text)))),
        None => Some(None),
    }
}

/// A value: `none`, a number, or a byte string. It is kept where it is a number of 64 bits or a byte string of the scene.
fn read_value(scene: &Scene, keys: &KeyTexts, text: &[u8]) -> Option<Option<Value>>
    requires { ArePlaces (byte_texts scene.now.keys) keys.now.texts }
    ensures value { IfSome result (λ kept. SpellsValue scene.now.keys text.now kept) }
    ensures none { IsNone result → SpellsNoValue text.now }
{
    if is_same(text, b"none") {
        return Some(Some(Value::Absent));
    }
    match read_signed(text) {
        Some(Some(number)) => Some(Some(Value::Num(number))),
        Some(None) => Some(None),
        None => read_known_bytes(scene, keys, text),
    }
}

/// A get with its value, as `K=V`. It is kept where its key and its value are.
fn read_get(scene: &Scene, keys: &KeyTexts, text: &[u8]) -> Option<Option<Got>>
    requires keys { ArePlaces (key_texts scene.now.keys) keys.now.keys }
    requires texts { ArePlaces (byte_texts scene.now.keys) keys.now.texts }
    ensures get { IfSome result (λ kept. SpellsGet scene.now.keys text.now kept) }
    ensures none { IsNone result → SpellsNoGet text.now }
{
    let (key, value) = split_at_byte(text, b'=')?;
    let key = read_known_key(scene, keys, key)?;
    let value = read_value(scene, keys, value)?;
    match key.zip(value) {
        Some((key, value)) => Some(Some(Got { key, value })),
        None => Some(None),
    }
}

/// The text before a space and what follows it, from the space on.
pub fn first_word(text: &[u8]) -> (&[u8], &[u8])
    ensures parts { text.now ≡ result.0.now ++ result.1.now }
    ensures word { is_without 32 result.0.now ≡ true }
    ensures after { IsAfterWord result.1.now }
{
    let length = match split_at_byte(text, b' ') {
        Some((word, _rest)) => word.len(),
        None => text.len(),
    };
    (&text[..length], &text[length..])
}

/// Gets so far, and whether all were kept.
#[derive(Drop)]
pub struct ReadGets {
    pub list: Vec<Got>,
    pub all_kept: bool,
}

impl ReadGets {
    /// No gets.
    fn new(alloc: Global) -> ReadGets
        ensures list { result.list.items ≡ [] }
        ensures kept { result.all_kept ≡ true }
    {
        ReadGets {
            list: Vec::new(alloc),
            all_kept: true,
        }
    }

    /// One more get.
    fn push(&mut self, got: Option<Got>) -> Result<(), AllocError>
        ensures { OnOk result (kept_gets self.new.all_kept self.new.list.items ≡ with_get (kept_gets self.old.all_kept self.old.list.items) got) }
    {
        match got {
            Some(got) => self.list.push(got)?,
            None => self.all_kept = false,
        }
        Ok(())
    }
}

/// Gets, each after a space. They are kept where all are of the scene.
pub fn read_gets(
    alloc: Global,
    scene: &Scene,
    keys: &KeyTexts,
    text: &[u8],
) -> Result<Option<ReadGets>, AllocError>
    requires keys { ArePlaces (key_texts scene.now.keys) keys.now.keys }
    requires texts { ArePlaces (byte_texts scene.now.keys) keys.now.texts }
    requires after { IsAfterWord text.now }
    ensures gets { IfOk result (λ o. IfSome o (λ r. SpellsGets scene.now.keys text.now (kept_gets r.all_kept r.list.items))) }
    ensures none { IfOk result (λ o. IsNone o → SpellsNoGets text.now) }
{
    let mut read = ReadGets::new(alloc);
    let mut left = text;
    while let Some(words) = rest_after(left, b" ") {
        let (word, rest) = first_word(words);
        let Some(got) = read_get(scene, keys, word) else {
            return Ok(None);
        };
        read.push(got)?;
        left = rest;
    }
    Ok(Some(read))
}

/// The gets of a list of at most 16.
pub fn short_gets(list: &[Got]) -> Gets
    requires { length list.now ≤ 16 }
    ensures { result ≡ list.now }
{
    let mut gets = Gets::new();
    for got in list {
        gets.push(*got);
    }
    gets
}
