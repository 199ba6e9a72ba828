ghost use Rattle.std.specs.Prelude.{◌≡◌, ◌+◌, ◌≤◌, [], Some, None, IsOk, OnOk, option_copied};
ghost use Rattle.std.specs.Borrow.{sem};
ghost use Rattle.slab.specs.Slab.{get, entries, slab_len, ContainsKey, HasRoomFor, SameValues, Updates};
ghost use Rattle.slab_laws.specs.Tables.{name_after, names};
ghost use Rattle.dcel_records.specs.KeyLimits.{HasNoKeyFrom};

use crate::keys::key_after;
use slab::{Iter, Slab};
use std::alloc::{AllocError, Global};
use std::marker::Model;
use std::ops::{Index, IndexMut};

/// Rows by key, which contracts see as the slab that keeps them.
///
/// A slab doesn't tell where its keys end, and its capacity stays once it was large. So a table keeps a limit that all keys
/// are below, and a look for the next key walks no further.
#[derive(Drop)]
pub(crate) struct Table<T> {
    slab: Slab<T>,
    limit: usize,
}

impl<T> Model for Table<T> {
    ghost use Rattle.slab.specs.Slab.{Slab as Slots, slab_code};

    ghost Value = { Slots T };

    ghost coded = { slab_code T.code };

    ghost use Rattle.dcel_records.specs.KeyLimits.{HasNoKeyFrom};

    ghost view = { λ t. t.slab };

    ghost invariant = { λ t. HasNoKeyFrom t.slab t.limit };
}

// The limit after a row has gone: once none is left, the slab forgets the keys that it had, and the limit is 0 again.
fn limit_without<T: Drop>(slab: &mut Slab<T>, limit: usize) -> usize
    requires { HasNoKeyFrom slab.old limit }
    ensures values { SameValues slab.old slab.new }
    ensures len { slab_len slab.new ≡ slab_len slab.old }
    ensures capacity { slab.new.capacity ≡ slab.old.capacity }
    ensures limit { HasNoKeyFrom slab.new result }
{
    if slab.is_empty() {
        slab.clear();
        return 0;
    }
    limit
}

impl<T: Drop> Table<T> {
    /// No rows, without room.
    pub(crate) fn new(alloc: Global) -> Table<T>
        ensures empty { result.slots ≡ [] }
        ensures first_key { result.vacant_key ≡ 0 }
    {
        Table {
            slab: Slab::new(alloc),
            limit: 0,
        }
    }

    /// How many rows fit with no memory.
    pub(crate) fn capacity(&self) -> usize
        ensures value { result ≡ self.now.capacity }
        ensures holds_all { slab_len self.now ≤ result }
    {
        self.slab.capacity()
    }

    /// How many rows there are.
    pub(crate) fn len(&self) -> usize
        ensures { result ≡ slab_len self.now }
    {
        self.slab.len()
    }

    /// Makes room for so many rows more; the rows stay, whatever comes.
    pub(crate) fn reserve(&mut self, additional: usize) -> Result<(), AllocError>
        ensures room { OnOk result (HasRoomFor self.new additional) }
        ensures succeeds { HasRoomFor self.old additional → IsOk result }
        ensures had_room { HasRoomFor self.old additional → self.new ≡ self.old }
        ensures capacity { self.old.capacity ≤ self.new.capacity }
        ensures rest_kept { self.new ≡ record self.old { capacity = self.new.capacity } }
    {
        self.slab.reserve(additional)
    }

    /// All rows go; their room stays.
    pub(crate) fn clear(&mut self)
        ensures empty { self.new.slots ≡ [] }
        ensures first_key { self.new.vacant_key ≡ 0 }
        ensures capacity { self.new.capacity ≡ self.old.capacity }
    {
        self.slab.clear();
        self.limit = 0;
    }

    /// The row of the key, if there is one.
    pub(crate) fn get(&self, key: usize) -> Option<&T>
        ensures { option_copied result ≡ get self.now key }
    {
        self.slab.get(key)
    }

    /// The rows with their keys, by rising key.
    pub(crate) fn iter(&self) -> Iter<'_, T>
        ensures { result ≡ entries self.now }
    {
        self.slab.iter()
    }

    /// The next greater key that has a row, or the least; `None` after the last.
    pub(crate) fn key_after(&self, key: Option<usize>) -> Option<usize>
        ensures { result ≡ name_after (names (entries self.now)) key }
    {
        key_after(&self.slab, key, self.limit)
    }

    /// A row more, under a key that was free, in room that is there.
    pub(crate) fn insert_reserved(&mut self, row: T) -> usize
        requires { HasRoomFor self.old 1 }
        ensures key { result ≡ self.old.vacant_key }
        ensures was_vacant { get self.old result ≡ None }
        ensures updates { Updates self.old self.new result (Some row) }
        ensures len { slab_len self.new ≡ slab_len self.old + 1 }
        ensures capacity { self.new.capacity ≡ self.old.capacity }
    {
        // A key is below the capacity, which a `usize` counts.
        let _capacity = self.slab.capacity();
        let key = self.slab.insert_reserved(row);
        self.limit = self.limit.max(key + 1);
        key
    }

    /// The row of the key goes.
    pub(crate) fn remove(&mut self, key: usize) -> T
        requires { ContainsKey self.old key }
        ensures value { get self.old key ≡ Some result }
        ensures updates { Updates self.old self.new key None }
        ensures len { slab_len self.new + 1 ≡ slab_len self.old }
        ensures room { HasRoomFor self.new 1 }
        ensures capacity { self.new.capacity ≡ self.old.capacity }
    {
        let row = self.slab.remove(key);
        self.limit = limit_without(&mut self.slab, self.limit);
        row
    }
}

impl<T> Index<usize> for Table<T> {
    type Output = T;

    ghost can_index = { ContainsKey };

    ghost index_gives = { λ s key row. get s key ≡ Some row };

    fn index(&self, key: usize) -> &T {
        &self.slab[key]
    }
}

impl<T> IndexMut<usize> for Table<T> {
    ghost use Rattle.dcel_records.specs.TableLends.{lends_row};

    fn index_mut(&mut self, key: usize) -> &mut T
        requires { ContainsKey self.old key }
        ensures* writes_back { sem 𝓛 (lends_row T.row self.entry key result) }
        ensures value { get self.old key ≡ Some result.now }
    {
        &mut self.slab[key]
    }
}
