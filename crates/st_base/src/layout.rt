ghost use Rattle.std.specs.Prelude.{◌≡◌, ◌+◌, ◌^◌, ◌<◌, ◌≤◌, ◌⊎◌, ◌++◌, List, ℕ, length, take, drop};
ghost use Rattle.st_base.specs.Number.{number, number_at, bytes_of, with_number_at, first_word as the_first_word, IsBytes};
ghost use Rattle.st_base.specs.ByteOrder.{is_big};

use crate::order::Order;
use byteorder::{BigEndian, ByteOrder, LittleEndian};

/// A record of `SIZE` bytes whose numbers have their most significant byte first where `BIG` holds, else
/// last. Places are counted in bytes from 0.
pub struct Layout<const BIG: bool, const SIZE: usize>;

#[tactic(auto, using(crate::proofs::NumberLemmas::reads, std::proofs::lemmas::Slice::overwrites))]
impl<const BIG: bool, const SIZE: usize> Layout<BIG, SIZE> {
    /// The byte at a place.
    pub fn get_u8(bytes: &[u8; SIZE], at: usize) -> u8
        requires { at + 1 ≤ SIZE }
        ensures { result ≡ number_at BIG bytes.now at 1 }
    {
        bytes[at]
    }

    /// The number of the two bytes at a place.
    pub fn get_u16(bytes: &[u8; SIZE], at: usize) -> u16
        requires { at + 2 ≤ SIZE }
        ensures { result ≡ number_at BIG bytes.now at 2 }
    {
        let all = &bytes[..];
        if BIG {
            BigEndian::read_u16(&all[at..])
        } else {
            LittleEndian::read_u16(&all[at..])
        }
    }

    /// The number of the three bytes at a place.
    pub fn get_u24(bytes: &[u8; SIZE], at: usize) -> u32
        requires { at + 3 ≤ SIZE }
        ensures { result ≡ number_at BIG bytes.now at 3 }
    {
        let all = &bytes[..];
        if BIG {
            BigEndian::read_u24(&all[at..])
        } else {
            LittleEndian::read_u24(&all[at..])
        }
    }

    /// The number of the four bytes at a place.
    pub fn get_u32(bytes: &[u8; SIZE], at: usize) -> u32
        requires { at + 4 ≤ SIZE }
        ensures { result ≡ number_at BIG bytes.now at 4 }
    {
        let all = &bytes[..];
        if BIG {
            BigEndian::read_u32(&all[at..])
        } else {
            LittleEndian::read_u32(&all[at..])
        }
    }

    /// Sets the byte at a place; all other bytes stay.
    pub fn put_u8(bytes: &mut [u8; SIZE], at: usize, value: u8)
        requires { at + 1 ≤ SIZE }
        ensures whole { bytes.new ≡ with_number_at BIG bytes.old at 1 value }
        ensures field { number_at BIG bytes.new at 1 ≡ value }
        ensures before { take at bytes.new ≡ take at bytes.old }
        ensures after { drop (at + 1) bytes.new ≡ drop (at + 1) bytes.old }
    {
        bytes[at] = value;
    }

    /// Sets the two bytes at a place to a number; all other bytes stay.
    pub fn put_u16(bytes: &mut [u8; SIZE], at: usize, value: u16)
        requires { at + 2 ≤ SIZE }
        ensures whole { bytes.new ≡ with_number_at BIG bytes.old at 2 value }
        ensures field { number_at BIG bytes.new at 2 ≡ value }
        ensures before { take at bytes.new ≡ take at bytes.old }
        ensures after { drop (at + 2) bytes.new ≡ drop (at + 2) bytes.old }
    {
        let all = &mut bytes[..];
        if BIG {
            BigEndian::write_u16(&mut all[at..at + 2], value);
        } else {
            LittleEndian::write_u16(&mut all[at..at + 2], value);
        }
    }

    /// Sets the three bytes at a place to a number below 2^24; all other bytes stay.
    pub fn put_u24(bytes: &mut [u8; SIZE], at: usize, value: u32)
        requires within { at + 3 ≤ SIZE }
        requires fits { value < 2 ^ 24 }
        ensures whole { bytes.new ≡ with_number_at BIG bytes.old at 3 value }
        ensures field { number_at BIG bytes.new at 3 ≡ value }
        ensures before { take at bytes.new ≡ take at bytes.old }
        ensures after { drop (at + 3) bytes.new ≡ drop (at + 3) bytes.old }
    {
        let all = &mut bytes[..];
        if BIG {
            BigEndian::write_u24(&mut all[at..at + 3], value);
        } else {
            LittleEndian::write_u24(&mut all[at..at + 3], value);
        }
    }

    /// Sets the four bytes at a place to a number; all other bytes stay.
    pub fn put_u32(bytes: &mut [u8; SIZE], at: usize, value: u32)
        requires { at + 4 ≤ SIZE }
        ensures whole { bytes.new ≡ with_number_at BIG bytes.old at 4 value }
        ensures field { number_at BIG bytes.new at 4 ≡ value }
        ensures before { take at bytes.new ≡ take at bytes.old }
        ensures after { drop (at + 4) bytes.new ≡ drop (at + 4) bytes.old }
    {
        let all = &mut bytes[..];
        if BIG {
            BigEndian::write_u32(&mut all[at..at + 4], value);
        } else {
            LittleEndian::write_u32(&mut all[at..at + 4], value);
        }
    }
}

/// The number of the first four bytes in this byte order; `None` exactly where there are fewer. Takes no memory.
pub fn first_word(order: Order, bytes: &[u8]) -> Option<u32>
    ensures { result ≡ the_first_word (is_big order) bytes.now }
{
    let (word, _) = bytes.split_first_chunk::<4>()?;
    Some(match order {
        Order::Little => Layout::<false, 4>::get_u32(word, 0),
        Order::Big => Layout::<true, 4>::get_u32(word, 0),
    })
}

/// Sets the first four bytes to a number in this byte order; the bytes after them stay. Takes no memory.
pub fn set_first_word(order: Order, bytes: &mut [u8], word: u32)
    requires { 4 ≤ length bytes.old }
    ensures { bytes.new ≡ bytes_of (is_big order) 4 word ++ drop 4 bytes.old }
{
    match order {
        Order::Little => LittleEndian::write_u32(bytes, word),
        Order::Big => BigEndian::write_u32(bytes, word),
    }
}

/// A number has one spelling in so many bytes: fields with equal numbers hold equal bytes.
pub fn one_spelling<const BIG: bool>()
    ensures { (x y : List ℕ) → IsBytes x → IsBytes y → length x ≡ length y → number BIG x ≡ number BIG y → x ≡ y }
{}

/// The bytes of a number and the number of bytes are inverse to each other: a number that fits is the number of its bytes, and
/// the bytes of a number read are those bytes again.
pub fn number_laws<const BIG: bool>()
    ensures number { (size value : ℕ) → value < 256 ^ size → number BIG (bytes_of BIG size value) ≡ value }
    ensures bytes { (x : List ℕ) → IsBytes x → bytes_of BIG (length x) (number BIG x) ≡ x }
{}

/// The laws of the fields of a record of `SIZE` bytes: a field that is set is read as what it was set to, a field that is read
/// and set to what was read leaves the record, and a field that lies apart stays.
pub fn field_laws<const BIG: bool, const SIZE: usize>()
    ensures set_then_read { (bytes : List ℕ) (at size value : ℕ) → length bytes ≡ SIZE → at + size ≤ SIZE → value < 256 ^ size
        → number_at BIG (with_number_at BIG bytes at size value) at size ≡ value }
    ensures read_then_set { (bytes : List ℕ) (at size : ℕ) → IsBytes bytes → length bytes ≡ SIZE → at + size ≤ SIZE
        → with_number_at BIG bytes at size (number_at BIG bytes at size) ≡ bytes }
    ensures apart { (bytes : List ℕ) (at size value other other_size : ℕ) → length bytes ≡ SIZE → at + size ≤ SIZE
        → (other + other_size ≤ at) ⊎ (at + size ≤ other)
        → number_at BIG (with_number_at BIG bytes at size value) other other_size ≡ number_at BIG bytes other other_size }
{}
