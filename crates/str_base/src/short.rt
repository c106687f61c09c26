//! Short lists of a fixed capacity, which take no memory and are seen as lists.
ghost use Rattle.std.specs.Prelude.{◌≡◌, ◌<◌, ◌≤◌, ◌++◌, ◌∷◌, [], length};

use crate::names::Write;
use arrayvec::ArrayVec;
use std::marker::Model;

/// At most `N` items in order. It is seen as the list of its items.
#[derive(Drop)]
pub struct ShortList<T, const N: usize> {
    items: ArrayVec<T, N>,
}

impl<T, const N: usize> Model for ShortList<T, N> {
    ghost use Rattle.std.specs.Prelude.{List};

    ghost Value = { List T };

    ghost view = { λ s. s.items.items };
}

impl<T: Copy + Default, const N: usize> ShortList<T, N> {
    /// An empty list.
    pub fn new() -> ShortList<T, N>
        ensures { result ≡ [] }
    {
        ShortList {
            items: ArrayVec::new(),
        }
    }

    /// The items.
    pub fn as_slice(&self) -> &[T]
        ensures items { result.now ≡ self.now }
        ensures limit { length self.now ≤ N }
    {
        self.items.as_slice()
    }

    /// The number of items.
    pub fn len(&self) -> usize
        ensures len { result ≡ length self.now }
        ensures limit { result ≤ N }
    {
        self.items.len()
    }

    /// Appends an item, where one more fits.
    pub fn push(&mut self, item: T)
        requires { length self.old < N }
        ensures { self.new ≡ self.old ++ item ∷ [] }
    {
        self.items.push(item);
    }

    /// An equal list. It takes no memory.
    pub fn copy(&self) -> ShortList<T, N>
        ensures { result ≡ self.now }
    {
        let mut items = ArrayVec::new();
        match items.try_extend_from_slice(self.items.as_slice()) {
            Ok(()) => ShortList { items },
            Err(_) => unreachable!(),
        }
    }
}

/// The writes of a transaction in order of first write, each key once.
pub type Writes = ShortList<Write, 16>;
