//! Copies over older collections, in their memory.

ghost use Rattle.std.specs.Prelude.{◌≡◌, ℕ, ◌+◌, ◌<◌, ◌++◌, ◌∷◌, [], Some, None, true, false, length, take, OnOk, OnErr};
ghost use Rattle.slab.specs.Slab.{get, Updates};

use crate::hasher::NumberIndex;
use slab::Slab;
use std::alloc::AllocError;

/// Makes the items those of the source. Fails when out of memory, and then there are none.
#[inline(always)]
pub fn copy_items<T: Copy + Drop>(items: &mut Vec<T>, source: &Vec<T>) -> Result<(), AllocError>
    ensures copied { OnOk result (items.new.items ≡ source.now.items) }
    ensures emptied { OnErr result (items.new.items ≡ []) }
{
    items.clear();
    items.extend_from_slice(source.as_slice())
}

/// Makes the entries those of the source. Entries of the same numbers at the front stay, and only get the values. Fails
/// when out of memory, and then the entries are any.
#[inline(always)]
pub fn copy_entries<V: Copy + Drop>(
    index: &mut NumberIndex<V>,
    source: &NumberIndex<V>,
) -> Result<(), AllocError>
    ensures { OnOk result (index.new.entries ≡ source.now.entries) }
{
    index.truncate(source.len());
    let mut at = 0;
    for (number, value) in source.iter() {
        if !put_at(index, at, *number, *value) {
            index.truncate(at);
            index.insert(*number, *value)?;
        }
        at += 1;
    }
    Ok(())
}

/// Replaces the value of the entry at this place, if the entry has the number. Returns whether it has.
#[inline(always)]
fn put_at<V: Copy + Drop>(index: &mut NumberIndex<V>, at: usize, number: u32, value: V) -> bool
    ensures put { result ≡ true → take (at + 1) index.new.entries ≡ take at index.old.entries ++ (number, value) ∷ [] }
    ensures within { result ≡ true → at < length index.old.entries }
    ensures len { length index.new.entries ≡ length index.old.entries }
    ensures unchanged { result ≡ false → index.new.entries ≡ index.old.entries }
{
    match index.get_index(at) {
        Some((found, _)) if *found == number => {
            index[at] = value;
            true
        }
        _ => false,
    }
}

/// Makes the values those of the source, each at its key. Fails when out of memory, and then the values are any.
#[inline(always)]
pub fn copy_values<T: Copy + Drop>(slots: &mut Slab<T>, source: &Slab<T>) -> Result<(), AllocError>
    requires { (value copied : T) → T.is_clone value copied → copied ≡ value }
    ensures { OnOk result ((key : ℕ) → get slots.new key ≡ get source.now key) }
{
    drop_others(slots, source);
    for (key, value) in source.iter() {
        if !replace_value(slots, key, value) && slots.insert(*value)? != key {
            return copy_anew(slots, source);
        }
    }
    Ok(())
}

/// Removes the values at keys that have none in the source.
#[inline(always)]
fn drop_others<T: Copy + Drop>(slots: &mut Slab<T>, source: &Slab<T>)
    ensures kept { (k : ℕ) (v : T) → get source.now k ≡ Some v → get slots.new k ≡ get slots.old k }
    ensures gone { (k : ℕ) → get source.now k ≡ None → get slots.new k ≡ None }
{
    for key in 0..slots.capacity() {
        if !source.contains(key) {
            slots.try_remove(key);
        }
    }
}

/// Replaces the value at the key, if it has one. Returns whether it has.
#[inline(always)]
fn replace_value<T: Copy + Drop>(slots: &mut Slab<T>, key: usize, value: &T) -> bool
    ensures replaced { result ≡ true → Updates slots.old slots.new key (Some value.now) }
    ensures unchanged { result ≡ false → slots.new ≡ slots.old }
{
    match slots.get_mut(key) {
        Some(place) => {
            *place = *value;
            true
        }
        None => false,
    }
}

/// Does as `copy_values` in the order of the keys, once the slab gives out its vacant keys in another one.
#[inline(never)]
fn copy_anew<T: Copy + Drop>(slots: &mut Slab<T>, source: &Slab<T>) -> Result<(), AllocError>
    requires { (value copied : T) → T.is_clone value copied → copied ≡ value }
    ensures { OnOk result ((key : ℕ) → get slots.new key ≡ get source.now key) }
{
    slots.clear();
    for (key, value) in source.iter() {
        fill(slots, key, value)?;
        if slots.insert(*value)? != key {
            *slots = source.clone()?;
            return Ok(());
        }
    }
    drop_others(slots, source);
    Ok(())
}

/// Gives the vacant keys below this one that come next the value. A cleared slab gives out its keys one by one, so it
/// comes to a key after vacant ones only then.
fn fill<T: Copy + Drop>(slots: &mut Slab<T>, key: usize, value: &T) -> Result<(), AllocError>
    ensures { (k : ℕ) (v : T) → get slots.old k ≡ Some v → get slots.new k ≡ Some v }
{
    for _ in slots.vacant_key()..key {
        slots.insert(*value)?;
    }
    Ok(())
}
