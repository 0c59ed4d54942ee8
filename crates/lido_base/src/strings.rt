//! The texts of a run, each with an id.
ghost use Rattle.std.specs.Prelude.{◌≡◌, ℕ, Some, [], ◌<◌, ◌≤◌, ◌^◌, length, slice_get, IfOk, IfSome, IfNone, OnOk, OnErr};
ghost use Rattle.lido_base.specs.Texts.{IsDistinctTexts, with_text};

use crate::{Memory, StrId};
use indexmap::IndexSet;
use std::alloc::Global;
use std::hash::{BuildHasher, DefaultHasher, Hasher};
use std::marker::Model;

/// Makes each hasher as a copy of one that was fed a key.
#[derive(Clone, Copy)]
struct TextHash {
    start: DefaultHasher,
}

impl TextHash {
    fn new(key: &[u8]) -> TextHash {
        let mut start = DefaultHasher::new();
        start.write(key);
        TextHash { start }
    }
}

impl BuildHasher for TextHash {
    type Hasher = DefaultHasher;

    ghost build_hasher = { λ s. s.start };

    fn build_hasher(&self) -> DefaultHasher {
        self.start
    }
}

/// Distinct texts in the order of first sight, at most 2^32 of them. The id of a text is its place, from 0.
///
/// Contracts see a table as the list of its texts.
#[derive(Drop)]
pub struct Strings {
    set: IndexSet<Vec<u8>, TextHash>,
}

impl Model for Strings {
    ghost use Rattle.std.specs.Prelude.{List, ℕ, length, ◌≤◌, ◌^◌};
    ghost use Rattle.lido_base.specs.Texts.{IsDistinctTexts, texts_of};

    ghost Value = { List (List ℕ) };

    ghost view = { λ s. texts_of s.set.keys };

    ghost invariant = { λ s. IsDistinctTexts (texts_of s.set.keys) × (length s.set.keys ≤ 2 ^ 32) };
}

impl Strings {
    /// A table without texts, for texts that can be trusted. It takes no memory, and answers no `Err` today.
    pub fn new(alloc: Global) -> Result<Strings, Memory>
        ensures { IfOk result (λ s. s ≡ []) }
    {
        Ok(Strings::keyed(alloc, &[]))
    }

    /// A table without texts whose hashes depend on a key. It takes no memory.
    ///
    /// `intern` hashes its texts. With hashes that are known beforehand, a hostile job could choose 80,000 names whose
    /// hashes collide, and each new name would be compared with all of them: the time would grow with the square of their
    /// number. Who does not know the key cannot choose such names. No clause speaks of the key, nor of time.
    pub fn keyed(alloc: Global, key: &[u8]) -> Strings
        ensures { result ≡ [] }
    {
        Strings {
            set: IndexSet::with_hasher(alloc, TextHash::new(key)),
        }
    }

    /// A table without texts, keyed by the whole text of a job. It takes no memory.
    ///
    /// The key is a digest of 128 bits. The job's names are part of the text, so who changes them to fit a key changes the
    /// key with them; and the same job gives the same key in every run.
    pub fn keyed_by(alloc: Global, text: &[u8]) -> Strings
        ensures { result ≡ [] }
    {
        Strings::keyed(alloc, &text_key(text))
    }

    /// How many texts stand here.
    pub fn len(&self) -> usize
        ensures count { result ≡ length self.now }
        ensures distinct { IsDistinctTexts self.now }
        ensures few { length self.now ≤ 2 ^ 32 }
    {
        self.set.len()
    }

    /// The id of a text. A new text is added behind the others, and the others keep their ids; a text that stands here
    /// keeps its id. `Err` is want of memory, or of an id: there are 2^32 of them. The table is then as before.
    pub fn intern(&mut self, text: &[u8]) -> Result<StrId, Memory>
        ensures id { IfOk result (λ id. slice_get self.new id.0 ≡ Some text.now) }
        ensures texts { OnOk result (self.new ≡ with_text self.old text.now) }
        ensures refused { OnErr result (self.new ≡ self.old) }
        ensures distinct { IsDistinctTexts self.new }
    {
        if let Some(index) = self.set.get_index_of(text) {
            return Ok(StrId(index as u32));
        }
        let id = u32_id(self.set.len())?;
        let owned = text.to_vec(*self.set.allocator())?;
        self.set.insert(owned)?;
        Ok(id)
    }

    /// The id of a text, if it stands here. Nothing is added; the time is that of one hash of the text and, in the mean, of
    /// one comparison.
    pub fn find(&self, text: &[u8]) -> Option<StrId>
        ensures there { IfSome result (λ id. slice_get self.now id.0 ≡ Some text.now) }
        ensures absent { IfNone result ((i : ℕ) → slice_get self.now i ≡ Some text.now → ⊥) }
    {
        match self.set.get_index_of(text) {
            Some(index) => Some(StrId(index as u32)),
            None => None,
        }
    }

    /// The text of an id that this table gave.
    pub fn bytes(&self, id: StrId) -> &[u8]
        requires { id.0 < length self.now }
        ensures { slice_get self.now id.0 ≡ Some result.now }
    {
        self.set.as_slice()[id.0 as usize].as_slice()
    }
}

/// A digest of 128 bits of a text: its SipHash behind two different prefixes.
fn text_key(text: &[u8]) -> [u8; 16] {
    let low = digest(&[0], text);
    let high = digest(&[1], text);
    (u128::from(high) << 64 | u128::from(low)).to_le_bytes()
}

fn digest(prefix: &[u8], text: &[u8]) -> u64 {
    let mut hasher = DefaultHasher::new();
    hasher.write(prefix);
    hasher.write(text);
    hasher.finish()
}

fn u32_id(index: usize) -> Result<StrId, Memory>
    ensures number { IfOk result (λ id. id.0 ≡ index) }
    ensures within { IfOk result (λ _. index < 2 ^ 32) }
{
    match u32::try_from(index) {
        Ok(number) => Ok(StrId(number)),
        Err(_) => Err(Memory),
    }
}
