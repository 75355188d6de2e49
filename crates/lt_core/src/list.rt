//! Lists. Adding an item takes constant time on the whole, and reading one constant time.

ghost use Rattle.std.specs.Prelude.{◌≡◌, ◌↔◌, [], ◌∷◌, ◌++◌, length, slice_get, IsTrue, IfOk, OnOk, OnErr};
ghost use Rattle.std.specs.Option.{option_copied};

mod order;

use crate::memory::Memory;
use std::alloc::Global;
use std::marker::Model;

/// A list, which contracts see as the list of its items. Every list type is an alias of it.
#[derive(Debug, Drop)]
pub struct List<T> {
    inner: Vec<T>,
}

impl<T> Model for List<T> {
    ghost use Rattle.std.specs.Prelude.{List as Listed};
    ghost use Rattle.std.specs.Coded.{coded_list};

    ghost Value = { Listed T };

    ghost coded = { coded_list T.code };

    ghost view = { λ it. it.inner.items };
}

impl<T> List<T> {
    pub fn new(alloc: Global) -> List<T>
        ensures { result ≡ [] }
    {
        List {
            inner: Vec::new(alloc),
        }
    }

    /// A list of these items, which are not copied.
    pub fn from_vec(items: Vec<T>) -> List<T>
        ensures { result ≡ items.items }
    {
        List { inner: items }
    }

    pub fn len(&self) -> usize
        ensures { result ≡ length self.now }
    {
        self.inner.len()
    }

    pub fn is_empty(&self) -> bool
        ensures { IsTrue result ↔ (self.now ≡ []) }
    {
        self.inner.is_empty()
    }

    /// The item at a place; none from the length on.
    pub fn get(&self, i: usize) -> Option<&T>
        ensures { option_copied result ≡ slice_get self.now i }
    {
        self.inner.get(i)
    }

    /// The allocator that it was made with.
    pub fn allocator(&self) -> Global {
        *self.inner.allocator()
    }

    pub fn as_slice(&self) -> &[T]
        ensures { result.now ≡ self.now }
    {
        self.inner.as_slice()
    }

    /// The items, which are not copied.
    pub fn into_vec(self) -> Vec<T>
        ensures { result.items ≡ self }
    {
        self.inner
    }
}

impl<T: Drop> List<T> {
    /// Adds an item at the end. An `Err` changes nothing.
    pub fn push(&mut self, item: T) -> Result<(), Memory>
        ensures ok { OnOk result (self.new ≡ self.old ++ item ∷ []) }
        ensures err { OnErr result (self.new ≡ self.old) }
    {
        self.inner.push(item)?;
        Ok(())
    }
}

impl<T: Copy> List<T> {
    pub fn from_slice(alloc: Global, items: &[T]) -> Result<List<T>, Memory>
        ensures { IfOk result (λ list. list ≡ items.now) }
    {
        let inner = Vec::from_slice(alloc, items)?;
        Ok(List { inner })
    }

    /// Adds items at the end. An `Err` changes nothing.
    pub fn extend_from_slice(&mut self, items: &[T]) -> Result<(), Memory>
        ensures ok { OnOk result (self.new ≡ self.old ++ items.now) }
        ensures err { OnErr result (self.new ≡ self.old) }
    {
        self.inner.extend_from_slice(items)?;
        Ok(())
    }
}

impl<T: ListItem> List<T> {
    /// A copy equals what it copies.
    pub fn copy(&self) -> Result<List<T>, Memory>
        ensures { IfOk result (λ list. list ≡ self.now) }
    {
        T::copy_items(self.allocator(), self.as_slice())
    }
}

/// What a list can copy.
pub trait ListItem: Drop {
    /// A copy equals what it copies.
    fn copy_item(&self) -> Result<Self, Memory>
        ensures { IfOk result (λ item. item ≡ self.now) };

    /// A list of copies, in their order. Items that are `Copy` override it, so that they are copied at once.
    fn copy_items(alloc: Global, items: &[Self]) -> Result<List<Self>, Memory>
        ensures { IfOk result (λ list. list ≡ items.now) }
    {
        let mut copies = List::new(alloc);
        for item in items {
            copies.push(item.copy_item()?)?;
        }
        Ok(copies)
    }
}

impl<T: ListItem> ListItem for List<T> {
    fn copy_item(&self) -> Result<List<T>, Memory> {
        self.copy()
    }
}

impl<A: ListItem, B: ListItem> ListItem for (A, B) {
    fn copy_item(&self) -> Result<(A, B), Memory> {
        let (first, second) = self;
        Ok((first.copy_item()?, second.copy_item()?))
    }
}

impl<A: ListItem, B: ListItem, C: ListItem> ListItem for (A, B, C) {
    fn copy_item(&self) -> Result<(A, B, C), Memory> {
        let (first, second, third) = self;
        Ok((first.copy_item()?, second.copy_item()?, third.copy_item()?))
    }
}

impl ListItem for u8 {
    fn copy_item(&self) -> Result<u8, Memory> {
        Ok(*self)
    }

    fn copy_items(alloc: Global, items: &[u8]) -> Result<List<u8>, Memory> {
        List::from_slice(alloc, items)
    }
}

impl ListItem for u16 {
    fn copy_item(&self) -> Result<u16, Memory> {
        Ok(*self)
    }

    fn copy_items(alloc: Global, items: &[u16]) -> Result<List<u16>, Memory> {
        List::from_slice(alloc, items)
    }
}

impl ListItem for u32 {
    fn copy_item(&self) -> Result<u32, Memory> {
        Ok(*self)
    }

    fn copy_items(alloc: Global, items: &[u32]) -> Result<List<u32>, Memory> {
        List::from_slice(alloc, items)
    }
}

impl ListItem for u64 {
    fn copy_item(&self) -> Result<u64, Memory> {
        Ok(*self)
    }

    fn copy_items(alloc: Global, items: &[u64]) -> Result<List<u64>, Memory> {
        List::from_slice(alloc, items)
    }
}

impl ListItem for i32 {
    fn copy_item(&self) -> Result<i32, Memory> {
        Ok(*self)
    }

    fn copy_items(alloc: Global, items: &[i32]) -> Result<List<i32>, Memory> {
        List::from_slice(alloc, items)
    }
}

impl ListItem for i64 {
    fn copy_item(&self) -> Result<i64, Memory> {
        Ok(*self)
    }

    fn copy_items(alloc: Global, items: &[i64]) -> Result<List<i64>, Memory> {
        List::from_slice(alloc, items)
    }
}
