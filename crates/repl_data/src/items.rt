//! The list type.

ghost use Rattle.std.specs.Prelude.{◌≡◌, [], ◌∷◌, ◌++◌, ◌<◌, ◌≤◌, length, slice_get, slice_set, insert, remove, ◌↔◌, IsTrue, codes, Some, IfOk, OnOk, OnErr, OnSome};
ghost use Rattle.std.specs.Option.{option_copied};

use std::alloc::{AllocError, AllocFailed, Global};
use std::error::Error;
use std::fmt;
use std::marker::Model;

/// No memory was left.
#[derive(Clone, Copy, Debug, Eq, PartialEq)]
pub struct NoMemory;

impl fmt::Display for NoMemory {
    ghost output = { λ _. Some (codes "no memory") };

    fn fmt<W: fmt::Write>(&self, f: &mut fmt::Formatter<W>) -> fmt::Result {
        write!(f, "no memory")
    }
}

impl Error for NoMemory {}

impl From<AllocError> for NoMemory {
    fn from(_error: AllocError) -> NoMemory {
        NoMemory
    }
}

impl<T: Drop> From<AllocFailed<T>> for NoMemory {
    fn from(_error: AllocFailed<T>) -> NoMemory {
        NoMemory
    }
}

/// A vector that contracts see as the list of its elements, so that data made of it is plain data.
#[derive(Clone, Debug, Drop)]
pub struct Items<T> {
    inner: Vec<T>,
}

/// Bytes.
pub type Bytes = Items<u8>;

pub type BytesList = Items<Bytes>;

impl<T> Model for Items<T> {
    ghost use Rattle.std.specs.Prelude.{List};
    ghost use Rattle.std.specs.Coded.{coded_list};

    ghost Value = { List T };

    ghost coded = { coded_list T.code };

    ghost view = { λ it. it.inner.items };
}

impl<T> Items<T> {
    /// No element. Takes no memory.
    pub fn new(alloc: Global) -> Items<T>
        ensures { result ≡ [] }
    {
        Items {
            inner: Vec::new(alloc),
        }
    }

    /// The elements of the vector, which moves. Takes no memory.
    pub fn from_vec(inner: Vec<T>) -> Items<T>
        ensures { result ≡ inner.items }
    {
        Items { inner }
    }

    /// The vector of the elements, which moves. Takes no memory.
    pub fn into_vec(self) -> Vec<T>
        ensures { result.items ≡ self }
    {
        let Items { inner } = self;
        inner
    }

    pub fn as_slice(&self) -> &[T]
        ensures { result.now ≡ self.now }
    {
        self.inner.as_slice()
    }

    pub fn len(&self) -> usize
        ensures { result ≡ length self.now }
    {
        self.inner.len()
    }

    pub fn is_empty(&self) -> bool
        ensures { IsTrue result ↔ (self.now ≡ []) }
    {
        self.inner.is_empty()
    }

    /// The element at this place, counted from 0, if there is one.
    pub fn get(&self, at: usize) -> Option<&T>
        ensures value { option_copied result ≡ slice_get self.now at }
        ensures within { OnSome result (at < length self.now) }
    {
        self.inner.get(at)
    }
}

impl<T: Copy> Items<T> {
    /// A copy of the elements.
    pub fn from_slice(alloc: Global, items: &[T]) -> Result<Items<T>, NoMemory>
        ensures { IfOk result (λ it. it ≡ items.now) }
    {
        let inner = Vec::from_slice(alloc, items)?;
        Ok(Items { inner })
    }

    /// Appends a copy of the elements.
    pub fn extend_from_slice(&mut self, items: &[T]) -> Result<(), NoMemory>
        ensures ok { OnOk result (self.new ≡ self.old ++ items.now) }
        ensures err { OnErr result (self.new ≡ self.old) }
    {
        self.inner.extend_from_slice(items)?;
        Ok(())
    }
}

impl<T: Drop> Items<T> {
    /// Appends the element.
    pub fn push(&mut self, item: T) -> Result<(), NoMemory>
        ensures ok { OnOk result (self.new ≡ self.old ++ item ∷ []) }
        ensures err { OnErr result (self.new ≡ self.old) }
    {
        self.inner.push(item)?;
        Ok(())
    }

    /// Puts the element at this place, counted from 0, before those from there on.
    pub fn insert(&mut self, at: usize, item: T) -> Result<(), NoMemory>
        requires { at ≤ length self.old }
        ensures ok { OnOk result (self.new ≡ insert self.old at item) }
        ensures err { OnErr result (self.new ≡ self.old) }
    {
        self.inner.insert(at, item)?;
        Ok(())
    }

    /// Takes out the element at this place, counted from 0.
    pub fn remove(&mut self, at: usize) -> T
        requires { at < length self.old }
        ensures item { slice_get self.old at ≡ Some result }
        ensures rest { self.new ≡ remove self.old at }
    {
        self.inner.remove(at)
    }

    /// Replaces the element at this place, counted from 0.
    pub fn set(&mut self, at: usize, item: T)
        requires { at < length self.old }
        ensures { self.new ≡ slice_set self.old at item }
    {
        self.inner[at] = item;
    }

    /// Moves the elements of `more` to the end.
    pub fn append(&mut self, more: Items<T>) -> Result<(), NoMemory>
        ensures { OnOk result (self.new ≡ self.old ++ more) }
    {
        let Items { mut inner } = more;
        self.inner.append(&mut inner)?;
        Ok(())
    }

    /// Drops all elements. The memory stays for the next ones.
    pub fn clear(&mut self)
        ensures { self.new ≡ [] }
    {
        self.inner.clear();
    }
}
