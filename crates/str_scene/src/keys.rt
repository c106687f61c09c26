//! The keys of a scene by number, and its byte strings.
ghost use Rattle.std.specs.Cmp.{partial_equiv_from_equiv};
ghost use Rattle.str_base.specs.declared.limits.TheConstants.{KEYS, NAME_BYTES, TEXT_BYTES};
ghost use Rattle.std.specs.Hash as fed;
ghost use Rattle.std.specs.List.{list_all};
ghost use Rattle.std.specs.Prelude.{◌≡◌, ◌≤◌, ◌<◌, ◌++◌, [], Some, true, flat_map, length, nat_le, OnOk, OnErr, OnSome, IfOk, IfNone, slice_get};
ghost use Rattle.std.specs.Str.{bytes_eq};
ghost use Rattle.str_scene.specs.Keeping.{Keeps};
ghost use Rattle.str_scene.specs.KeyLaws.{bytes-Alike, bytes_equiv, pair_writes, same_pair-Alike, same_pair_equiv};
ghost use Rattle.str_scene.specs.Keys.{number_of, same_pair, string_number, with_pair, with_string};
ghost use Rattle.str_scene.specs.SceneLimits.{in_name, is_name};
ghost use Rattle.str_scene.specs.Scenes.{KeyTable as Table, named_part};
ghost use Rattle.str_scene.specs.Spelling.{hex_byte, hex_digit, key_spelled, name_spelled, text_spelled};

use indexmap::IndexSet;
use std::alloc::{AllocError, Global};
use std::hash::{Hash, Hasher};
use std::marker::Model;
use str_base::limits::{KEYS, NAME_BYTES, TEXT_BYTES};
use str_base::{KeyId, PartId, ShortList, TextId, push_u64};

/// The name of a key: 1 to 16 bytes.
pub type Name = ShortList<u8, NAME_BYTES>;

/// A byte string of a scene: at most 64 bytes.
pub type ByteText = ShortList<u8, TEXT_BYTES>;

/// A name and a partition. It is seen as the pair.
#[derive(Drop)]
struct NamedKey {
    name: Name,
    part: PartId,
}

impl Model for NamedKey {
    ghost use Rattle.std.specs.Prelude.{List, ℕ};
    ghost use Rattle.str_base.specs.declared.names.PartId.{PartId};

    ghost Value = { List ℕ × PartId };

    ghost view = { λ k. (k.name, k.part) };
}

impl PartialEq for NamedKey {
    ghost eq = { same_pair };

    ghost laws = { partial_equiv_from_equiv same_pair_equiv };

    fn eq(&self, other: &NamedKey) -> bool {
        other.name.as_slice() == self.name.as_slice() && other.part == self.part
    }
}

impl Eq for NamedKey {
    ghost laws = { same_pair_equiv };
}

impl Hash for NamedKey {
    ghost hash_input = { pair_writes };

    ghost respects_eq = { same_pair-Alike.fed };

    fn hash<H: Hasher>(&self, state: &mut H) {
        self.name.as_slice().hash(state);
        self.part.0.hash(state);
    }
}

impl Clone for NamedKey {
    ghost is_clone = { λ key copy. copy ≡ key };

    fn clone(&self) -> Result<NamedKey, AllocError> {
        Ok(NamedKey {
            name: self.name.copy(),
            part: self.part,
        })
    }
}

/// A byte string of a table. It is seen as the list of its bytes.
#[derive(Drop)]
struct StoredText {
    bytes: ByteText,
}

impl Model for StoredText {
    ghost use Rattle.std.specs.Prelude.{List, ℕ};

    ghost Value = { List ℕ };

    ghost view = { λ t. t.bytes };
}

impl PartialEq for StoredText {
    ghost eq = { bytes_eq };

    ghost laws = { partial_equiv_from_equiv bytes_equiv };

    fn eq(&self, other: &StoredText) -> bool {
        self.bytes.as_slice() == other.bytes.as_slice()
    }
}

impl Eq for StoredText {
    ghost laws = { bytes_equiv };
}

impl Hash for StoredText {
    ghost hash_input = { fed.slice fed.u8 };

    ghost respects_eq = { bytes-Alike.fed };

    fn hash<H: Hasher>(&self, state: &mut H) {
        self.bytes.as_slice().hash(state);
    }
}

impl Clone for StoredText {
    ghost is_clone = { λ text copy. copy ≡ text };

    fn clone(&self) -> Result<StoredText, AllocError> {
        Ok(StoredText {
            bytes: self.bytes.copy(),
        })
    }
}

/// The keys in order of first appearance, each a name and a partition, at most 16,384, and the byte strings in order
/// of first appearance, at most 16,384. A key's number is its place, from 0, and so is a byte string's. A key or a byte
/// string is found by its hash.
#[derive(Drop)]
pub struct KeyTable {
    names: IndexSet<NamedKey>,
    texts: IndexSet<StoredText>,
}

impl Model for KeyTable {
    ghost use Rattle.str_scene.specs.Scenes.{KeyTable as Table};

    ghost Value = { Table };

    ghost view = { λ t. record { names = t.names.keys; texts = t.texts.keys } };

    ghost use Rattle.std.specs.Prelude.{length, ◌≤◌};
    ghost use Rattle.str_base.specs.declared.limits.TheConstants.{KEYS};

    ghost invariant = { λ t. (length t.names.keys ≤ KEYS) × (length t.texts.keys ≤ KEYS) };
}

impl KeyTable {
    /// A table without keys and byte strings.
    pub fn new(alloc: Global) -> KeyTable
        ensures names { result.names ≡ [] }
        ensures texts { result.texts ≡ [] }
    {
        KeyTable {
            names: IndexSet::new(alloc),
            texts: IndexSet::new(alloc),
        }
    }

    /// An equal table.
    pub fn copy(&self) -> Result<KeyTable, AllocError>
        ensures { IfOk result (λ t. t ≡ self.now) }
    {
        Ok(KeyTable {
            names: self.names.clone()?,
            texts: self.texts.clone()?,
        })
    }

    /// The number of keys.
    pub fn len(&self) -> u32
        ensures value { result ≡ length self.now.names }
        ensures limit { result ≤ KEYS }
    {
        self.names.len() as u32
    }

    /// The number of byte strings. Their numbers are those below it.
    pub fn texts(&self) -> u32
        ensures value { result ≡ length self.now.texts }
        ensures limit { result ≤ KEYS }
    {
        self.texts.len() as u32
    }

    /// The partition of a key.
    pub fn part(&self, key: KeyId) -> PartId
        requires { key.0 < length self.now.names }
        ensures { result ≡ named_part (slice_get self.now.names key.0) }
    {
        let named = &self.names.as_slice()[key.0 as usize];
        named.part
    }

    /// Whether the table with a key has at most 16,384 keys.
    pub(crate) fn has_room(&self, name: &[u8], part: PartId) -> bool
        requires { length name.now ≤ NAME_BYTES }
        ensures { result ≡ nat_le (length (with_pair (name.now, part) self.now.names)) KEYS }
    {
        let key = NamedKey {
            name: short_name(name),
            part,
        };
        self.names.contains(&key) || self.names.len() < KEYS
    }

    /// Whether the list with a byte string has at most 16,384 byte strings.
    pub(crate) fn has_text_room(&self, bytes: &[u8]) -> bool
        requires { length bytes.now ≤ TEXT_BYTES }
        ensures { result ≡ nat_le (length (with_string bytes.now self.now.texts)) KEYS }
    {
        let text = StoredText {
            bytes: byte_text(bytes),
        };
        self.texts.contains(&text) || self.texts.len() < KEYS
    }

    /// The number of a key, which is put at the end where it is not there. It needs a name, and that the key is there or the
    /// table has fewer than 16,384 keys. It fails where memory runs out, and then the table stays as it was.
    pub fn intern(&mut self, name: &[u8], part: PartId) -> Result<KeyId, AllocError>
        requires name { is_name name.now ≡ true }
        requires room { length (with_pair (name.now, part) self.old.names) ≤ KEYS }
        ensures number { IfOk result (λ k. number_of (name.now, part) self.old.names ≡ Some k) }
        ensures added { OnOk result (self.new ≡ record self.old { names = with_pair (name.now, part) self.old.names }) }
        ensures err { OnErr result (self.new ≡ self.old) }
    {
        self.put(short_name(name), part)
    }

    /// The number of a key, which is put at the end where it is not there.
    fn put(&mut self, name: Name, part: PartId) -> Result<KeyId, AllocError>
        requires { length (with_pair (name, part) self.old.names) ≤ KEYS }
        ensures number { IfOk result (λ k. number_of (name, part) self.old.names ≡ Some k) }
        ensures added { OnOk result (self.new ≡ record self.old { names = with_pair (name, part) self.old.names }) }
        ensures err { OnErr result (self.new ≡ self.old) }
    {
        let (place, _) = self.names.insert_full(NamedKey { name, part })?;
        Ok(KeyId(place as u32))
    }

    /// The number of a byte string, which is put at the end where it is not there. It needs at most 64 bytes, and that the
    /// byte string is there or the table has fewer than 16,384. It fails where memory runs out, and then the table stays as it was.
    pub fn intern_text(&mut self, bytes: &[u8]) -> Result<TextId, AllocError>
        requires short { length bytes.now ≤ TEXT_BYTES }
        requires room { length (with_string bytes.now self.old.texts) ≤ KEYS }
        ensures number { IfOk result (λ t. string_number bytes.now self.old.texts ≡ Some t) }
        ensures added { OnOk result (self.new ≡ record self.old { texts = with_string bytes.now self.old.texts }) }
        ensures err { OnErr result (self.new ≡ self.old) }
    {
        let text = StoredText {
            bytes: byte_text(bytes),
        };
        let (place, _) = self.texts.insert_full(text)?;
        Ok(TextId(place as u32))
    }

    /// The number of a key, which is added at the end where it is not there. None where the table would then
    /// have more than 16,384 keys; the table then stays as it was, as it does after an `Err`.
    pub(crate) fn intern_name(
        &mut self,
        name: Name,
        part: PartId,
    ) -> Result<Option<KeyId>, AllocError>
        ensures number { IfOk result (λ o. o ≡ number_of (name, part) self.old.names) }
        ensures added { IfOk result (λ o. OnSome o (self.new ≡ record self.old { names = with_pair (name, part) self.old.names })) }
        ensures none { IfOk result (λ o. IfNone o (self.new ≡ self.old)) }
        ensures err { OnErr result (self.new ≡ self.old) }
    {
        if !self.has_room(name.as_slice(), part) {
            return Ok(None);
        }
        let key = self.put(name, part)?;
        Ok(Some(key))
    }

    /// Appends a key as text: its name, `@` and its partition. A number that is no key's appends nothing.
    /// It fails where memory runs out, and then the bytes stay as they were.
    pub fn push_key(&self, key: KeyId, out: &mut Vec<u8>) -> Result<(), AllocError>
        ensures ok { OnOk result (out.new.items ≡ out.old.items ++ key_spelled self.now key) }
        ensures err { OnErr result (out.new.items ≡ out.old.items) }
    {
        let Some(named) = self.names.get_index(key.0 as usize) else {
            return Ok(());
        };
        let start = out.len();
        match push_named(named, out) {
            Ok(()) => Ok(()),
            Err(error) => {
                out.truncate(start);
                Err(error)
            }
        }
    }

    /// Appends a byte string as text: `x`, then two digits for each byte. A number that is no byte string's
    /// appends nothing. It fails where memory runs out, and then the bytes stay as they were.
    pub fn push_text(&self, text: TextId, out: &mut Vec<u8>) -> Result<(), AllocError>
        ensures ok { OnOk result (out.new.items ≡ out.old.items ++ text_spelled (slice_get self.now.texts text.0)) }
        ensures err { OnErr result (out.new.items ≡ out.old.items) }
    {
        let Some(text) = self.texts.get_index(text.0 as usize) else {
            return Ok(());
        };
        let start = out.len();
        match push_bytes(text.bytes.as_slice(), out) {
            Ok(()) => Ok(()),
            Err(error) => {
                out.truncate(start);
                Err(error)
            }
        }
    }
}

/// Appends a key as text. What was there stays, also where it fails.
#[tactic(auto, using(crate::proofs::KeepingLemmas::keeping))]
fn push_named(key: &NamedKey, out: &mut Vec<u8>) -> Result<(), AllocError>
    ensures ok { OnOk result (out.new.items ≡ out.old.items ++ name_spelled (Some key.now)) }
    ensures err { OnErr result (Keeps out.old.items out.new.items) }
{
    out.extend_from_slice(key.name.as_slice())?;
    out.extend_from_slice(b"@")?;
    push_u64(out, u64::from(key.part.0))
}

/// Appends a byte string as text. What was there stays, also where it fails.
#[tactic(auto, using(crate::proofs::KeepingLemmas::keeping))]
fn push_bytes(bytes: &[u8], out: &mut Vec<u8>) -> Result<(), AllocError>
    ensures ok { OnOk result (out.new.items ≡ out.old.items ++ text_spelled (Some bytes.now)) }
    ensures err { OnErr result (Keeps out.old.items out.new.items) }
{
    out.extend_from_slice(b"x")?;
    for byte in bytes {
        let digits = [hex_digit(*byte / 16), hex_digit(*byte % 16)];
        out.extend_from_slice(&digits)?;
    }
    Ok(())
}

/// The byte may stand in a name after its first letter.
fn may_follow(byte: u8) -> bool
    ensures { result ≡ in_name byte }
{
    byte.is_ascii_lowercase() || byte.is_ascii_digit() || byte == b'_'
}

/// All of the bytes may stand in a name after its first letter.
fn all_may_follow(bytes: &[u8]) -> bool
    ensures { result ≡ list_all in_name bytes.now }
{
    for byte in bytes {
        if !may_follow(*byte) {
            return false;
        }
    }
    true
}

/// The bytes are a name: a letter, then at most 15 letters, digits or underscores.
pub fn spells_name(bytes: &[u8]) -> bool
    ensures { result ≡ is_name bytes.now }
{
    let Some((first, rest)) = bytes.split_first() else {
        return false;
    };
    first.is_ascii_lowercase() && all_may_follow(rest) && rest.len() <= 15
}

/// A name of these bytes.
pub fn short_name(bytes: &[u8]) -> Name
    requires { length bytes.now ≤ NAME_BYTES }
    ensures { result ≡ bytes.now }
{
    let mut name = Name::new();
    for byte in bytes {
        name.push(*byte);
    }
    name
}

/// A byte string of these bytes.
fn byte_text(bytes: &[u8]) -> ByteText
    requires { length bytes.now ≤ TEXT_BYTES }
    ensures { result ≡ bytes.now }
{
    let mut text = ByteText::new();
    for byte in bytes {
        text.push(*byte);
    }
    text
}

/// The digit of a number from 0 to 15.
fn hex_digit(n: u8) -> u8
    requires { n < 16 }
    ensures { result ≡ hex_digit n }
{
    if n < 10 { b'0' + n } else { b'a' - 10 + n }
}

#[cfg(test)]
mod tests {
    use super::*;
    use std::test::Fail;

    #[test]
    fn writes_keys_and_texts(rt: HostRuntime) -> Result<(), Fail> {
        let part = PartId(12);
        let mut table = KeyTable::new(rt.alloc());
        table.intern(b"a", part)?;
        table.intern_text(b"")?;
        table.intern_text(&[0, 0xb9])?;
        let mut out = Vec::new(rt.alloc());
        for number in 0..2 {
            table.push_key(KeyId(number), &mut out)?;
            out.push(b' ')?;
        }
        for number in 0..3 {
            table.push_text(TextId(number), &mut out)?;
            out.push(b' ')?;
        }
        let want: &[u8] = b"a@12  x x00b9  ";
        assert_eq!(rt; out.as_slice(), want);
        Ok(())
    }
}
