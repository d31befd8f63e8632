//! Equality, order and hash of references, by one key.
ghost use Rattle.std.specs.Prelude.{◌≡◌, ◌↔◌, ℕ, pos};
ghost use Rattle.iref.specs.{Characters.{iri_chars}, Grammar.{IsUriReference}, Reference.{ReferenceValue}};
ghost use Rattle.iref_c.specs.{Answers.{StoresOf, StoresOfTwo}, Comparison.{equal_number, hash_from, hash_number}};
ghost use Rattle.iref_c.specs.Comparison.{keyed_hash_number, number_of_order, order_number};

use crate::status::INVALID;
use crate::store::{store, two_references};
use core::hash::keyed_hasher;
use iref::iri::IriRef;
use std::cmp::Ordering;
use std::hash::{DefaultHasher, Hash, Hasher};

/// Whether two references are equal: 1 where they are, else 0.
#[unsafe(no_mangle)]
pub extern "C" fn iref_equal(first: &[u8], second: &[u8], equal: &mut u32) -> u32
    ensures { StoresOfTwo equal_number first.now second.now equal.old equal.new result }
{
    match two_references(first, second) {
        Ok((first, second)) => store(if first == second { 1 } else { 0 }, equal),
        Err(status) => status,
    }
}

// The order as a number.
fn number_of(order: Ordering) -> i32
    ensures { result ≡ number_of_order order }
{
    match order {
        Ordering::Less => -1,
        Ordering::Equal => 0,
        Ordering::Greater => 1,
    }
}

/// The order of two references: -1, 0 where they are equal, or 1.
#[unsafe(no_mangle)]
pub extern "C" fn iref_compare(first: &[u8], second: &[u8], order: &mut i32) -> u32
    ensures { StoresOfTwo order_number first.now second.now order.old order.new result }
{
    match two_references(first, second) {
        Ok((first, second)) => store(number_of(first.cmp(&second)), order),
        Err(status) => status,
    }
}

// The hash of a reference by this hasher.
fn hash_by(hasher: DefaultHasher, text: &[u8], hash: &mut u64) -> u32
    ensures { StoresOf (IsUriReference iri_chars) (hash_from hasher) text.now hash.old hash.new
        result }
{
    let Ok(reference) = IriRef::from_bytes(text) else {
        return INVALID;
    };
    let mut hasher = hasher;
    reference.hash(&mut hasher);
    store(hasher.finish(), hash)
}

/// The hash of a reference, the same for equal ones.
#[unsafe(no_mangle)]
pub extern "C" fn iref_hash(text: &[u8], hash: &mut u64) -> u32
    ensures { StoresOf (IsUriReference iri_chars) hash_number text.now hash.old hash.new result }
{
    hash_by(DefaultHasher::new(), text, hash)
}

/// The hash of a reference under two keys, the same for equal ones.
#[unsafe(no_mangle)]
pub extern "C" fn iref_hash_keyed(text: &[u8], key0: u64, key1: u64, hash: &mut u64) -> u32
    ensures { StoresOf (IsUriReference iri_chars) (keyed_hash_number key0 key1)
        text.now hash.old hash.new result }
{
    hash_by(keyed_hasher(key0, key1), text, hash)
}

/// Equality, order and hash agree: references are equal exactly where their order is 0, and equal
/// ones have one hash, also under keys.
pub fn equality_order_and_hash_agree()
    ensures order { (r s : ReferenceValue) → (equal_number r s ≡ 1)
        ↔ (order_number r s ≡ pos 0) }
    ensures hash { (r s : ReferenceValue) → equal_number r s ≡ 1
        → hash_number r ≡ hash_number s }
    ensures keyed { (key0 key1 : ℕ) (r s : ReferenceValue) → equal_number r s ≡ 1
        → keyed_hash_number key0 key1 r ≡ keyed_hash_number key0 key1 s }
{}
