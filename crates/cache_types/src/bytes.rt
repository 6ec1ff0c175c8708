ghost use Rattle.std.specs.Prelude.{◌≡◌, ◌<◌, ◌≤◌, ◌-◌, ◌++◌, ◌∷◌, [], length, take, drop, IfOk, OnOk, OnErr, slice_set, nat_eq};
ghost use Rattle.std.specs.List.{AllByRecursion};
ghost use Rattle.std.specs.Cmp.Lexicographic.{pointwise, nat_list_eq_equiv};
ghost use Rattle.std.specs.Cmp.{partial_equiv_from_equiv};

use crate::memory::NoMemory;
use std::alloc::Global;
use std::marker::Model;

/// Bytes on the heap, which contracts see as their list.
#[derive(Debug)]
pub struct Bytes {
    items: Vec<u8>,
    /// So many items in front are no longer among the bytes: [`Bytes::behind`] left them where they are.
    skipped: usize,
}

impl Drop for Bytes {
    fn drop(self) {
        let Bytes {
            items: _items,
            skipped: _,
        } = self;
    }
}

impl Model for Bytes {
    ghost use Rattle.std.specs.Prelude.{◌≤◌, List, ℕ, length, drop};

    ghost Value = { List ℕ };

    ghost view = { λ b. drop b.skipped b.items.items };

    ghost invariant = { λ b. b.skipped ≤ length b.items.items };
}

impl Bytes {
    /// No bytes. Takes no memory.
    pub fn new(alloc: Global) -> Bytes
        ensures { result ≡ [] }
    {
        Bytes {
            items: Vec::new(alloc),
            skipped: 0,
        }
    }

    /// A copy of these bytes.
    pub fn of(alloc: Global, items: &[u8]) -> Result<Bytes, NoMemory>
        ensures { IfOk result (λ b. b ≡ items.now) }
    {
        let items = Vec::from_slice(alloc, items)?;
        Ok(Bytes { items, skipped: 0 })
    }

    /// The bytes of a vector, which keeps its memory.
    pub fn from_vec(items: Vec<u8>) -> Bytes
        ensures { result ≡ items.items }
    {
        Bytes { items, skipped: 0 }
    }

    /// The bytes behind the first so many, in the memory of all of them. Takes no memory.
    pub fn behind(self, n: u64) -> Bytes
        ensures { result ≡ drop n self }
    {
        let left = self.items.len() - self.skipped;
        let skipped = self.skipped + left.min(n as usize);
        let Bytes { items, skipped: _ } = self;
        Bytes { items, skipped }
    }

    /// These bytes behind others, which are copied before them into room that [`behind`](Bytes::behind) left there. Where that isn't
    /// enough all are copied into new memory, and else none is taken.
    pub fn fronted(self, front: &[u8]) -> Result<Bytes, NoMemory>
        ensures { IfOk result (λ b. b ≡ front.now ++ self) }
    {
        if self.skipped < front.len() {
            return joined(*self.items.allocator(), front, self.as_slice());
        }
        let Bytes { mut items, skipped } = self;
        put_before(items.as_mut_slice(), skipped, front);
        Ok(Bytes {
            items,
            skipped: skipped - front.len(),
        })
    }

    /// The bytes. Takes no memory.
    pub fn as_slice(&self) -> &[u8]
        ensures { result.now ≡ self.now }
    {
        &self.items[self.skipped..]
    }

    /// The same bytes in memory of their own.
    pub fn copy(&self) -> Result<Bytes, NoMemory>
        ensures { IfOk result (λ b. b ≡ self.now) }
    {
        Bytes::of(*self.items.allocator(), self.as_slice())
    }

    /// How many bytes there are.
    pub fn len(&self) -> u64
        ensures { result ≡ length self.now }
    {
        (self.items.len() - self.skipped) as u64
    }

    /// Whether there are none.
    pub fn is_empty(&self) -> bool
        ensures { result ≡ nat_eq (length self.now) 0 }
    {
        self.items.len() == self.skipped
    }

    /// Changes one byte. Takes no memory.
    pub fn set(&mut self, at: u64, value: u8)
        requires { at < length self.old }
        ensures { self.new ≡ slice_set self.old at value }
    {
        self.items[self.skipped + at as usize] = value;
    }

    /// Adds a byte at the end. A refusal changes nothing.
    pub fn push(&mut self, value: u8) -> Result<(), NoMemory>
        ensures ok { OnOk result (self.new ≡ self.old ++ value ∷ []) }
        ensures err { OnErr result (self.new ≡ self.old) }
    {
        self.items.push(value)?;
        Ok(())
    }

    /// Keeps the first bytes, at most so many. Takes no memory.
    pub fn cut(&mut self, n: u64)
        ensures { self.new ≡ take n self.old }
    {
        if n < self.len() {
            self.items.truncate(self.skipped + n as usize);
        }
    }

    /// What is known of all bytes: each is below 256.
    pub fn known(&self)
        ensures { AllByRecursion (λ b. b < 256) self.now }
    {
        are_bytes(self.as_slice());
    }
}

/// A copy of two slices, one behind the other.
fn joined(alloc: Global, front: &[u8], rest: &[u8]) -> Result<Bytes, NoMemory>
    ensures { IfOk result (λ b. b ≡ front.now ++ rest.now) }
{
    let mut items = Vec::from_slice(alloc, front)?;
    items.extend_from_slice(rest)?;
    Ok(Bytes::from_vec(items))
}

/// Copies bytes to where they end at a place.
fn put_before(items: &mut [u8], end: usize, bytes: &[u8])
    requires within { end ≤ length items.old }
    requires fits { length bytes.now ≤ end }
    ensures len { length items.new ≡ length items.old }
    ensures front { drop (end - length bytes.now) items.new ≡ bytes.now ++ drop end items.old }
{
    items[end - bytes.len()..end].copy_from_slice(bytes);
}

/// What is known of all bytes of a slice.
fn are_bytes(items: &[u8])
    ensures { AllByRecursion (λ b. b < 256) items.now }
{
    let _len = items.len();
}

impl PartialEq for Bytes {
    ghost eq = { pointwise nat_eq };

    ghost laws = { partial_equiv_from_equiv nat_list_eq_equiv };

    fn eq(&self, other: &Bytes) -> bool {
        self.as_slice() == other.as_slice()
    }
}

impl Eq for Bytes {
    ghost laws = { nat_list_eq_equiv };
}
