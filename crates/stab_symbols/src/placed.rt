ghost use Rattle.std.specs.Prelude.{◌≡◌, ◌++◌, ◌∷◌, decimal, OnOk, OnErr, All, Contains, position, unwrap_or};
ghost use Rattle.std.specs.List.{IsDistinct};
ghost use Rattle.stab_symbols.specs.Printing.{Grows};
ghost use Rattle.stab_symbols.specs.Surface.{same_key, surface_of, placed};

use crate::keys::key_of;
use crate::printing::{NumberWriter, append_type, put_byte, put_bytes};
use crate::tree::{Key, Num, TypeTree};
use indexmap::IndexSet;
use itoa::Buffer;
use st_base::{List, Memory, Text};

// Appends `#` and a place.
fn put_place(place: usize, out: &mut Text) -> Result<(), Memory>
    ensures ok { OnOk result (out.new ≡ out.old ++ 35 ∷ decimal place) }
    ensures grows { Grows out.old out.new }
{
    let mut buffer = Buffer::new();
    put_byte(b'#', out)?;
    put_bytes(buffer.format(place).as_bytes(), out)
}

// ---- places in a list

// The first place of a key, counted from 0.
fn found(keys: &[Key], key: &Key) -> Option<usize>
    ensures { result ≡ position (same_key key.now) keys.now }
{
    keys.iter().position(|other| key == other)
}

// The place of a key, counted from 0; 0 if it is not in the list.
fn place_of(keys: &List<Key>, key: Key) -> usize
    ensures { result ≡ unwrap_or (position (same_key key) keys.now) 0 }
{
    found(keys.items(), &key).unwrap_or(0)
}

// Numbers as places in a list of keys.
#[derive(Drop)]
struct Listed<'a> {
    keys: &'a List<Key>,
}

impl<'a> NumberWriter for Listed<'a> {
    ghost use Rattle.std.specs.Prelude.{true};
    ghost use Rattle.stab_symbols.specs.Surface.{place_text};

    ghost number = { λ listed. place_text listed.keys.now };

    ghost hides = { λ _. true };

    fn put(&self, num: &Num, out: &mut Text) -> Result<(), Memory> {
        put_place(place_of(self.keys, key_of(num)), out)
    }

    fn hides_definitions(&self) -> bool {
        true
    }
}

/// Appends the text of a type in a listing of these keys: each number on its surface is `#` and the place of its key,
/// counted from 0, and its definition is left out. Out of memory, `out` stays as it was.
pub fn print_placed(tree: &TypeTree, keys: &List<Key>, out: &mut Text) -> Result<(), Memory>
    requires distinct { IsDistinct same_key keys.now }
    requires present { All (Contains keys.now) (surface_of tree.now) }
    ensures ok { OnOk result (out.new ≡ out.old ++ placed keys.now tree.now) }
    ensures err { OnErr result (out.new ≡ out.old) }
{
    append_type(tree, &Listed { keys }, out)
}

// ---- places in a set

// Numbers as the places that their keys have in a set.
#[derive(Drop)]
struct Placed<'a> {
    keys: &'a IndexSet<Key>,
}

impl<'a> NumberWriter for Placed<'a> {
    ghost use Rattle.std.specs.Prelude.{true};
    ghost use Rattle.stab_symbols.specs.Surface.{place_text};

    ghost number = { λ set. place_text set.keys.now.keys };

    ghost hides = { λ _. true };

    fn put(&self, num: &Num, out: &mut Text) -> Result<(), Memory> {
        put_place(self.keys.get_index_of(&key_of(num)).unwrap_or(0), out)
    }

    fn hides_definitions(&self) -> bool {
        true
    }
}

/// Appends the text of a type as `print_placed` does, in a listing of the keys of a set: each number costs one look-up, however long
/// the listing is, and a key that is not in the set has the place 0. Out of memory, `out` stays as it was.
pub fn print_placed_by(tree: &TypeTree, keys: &IndexSet<Key>, out: &mut Text) -> Result<(), Memory>
    ensures ok { OnOk result (out.new ≡ out.old ++ placed keys.now.keys tree.now) }
    ensures err { OnErr result (out.new ≡ out.old) }
{
    append_type(tree, &Placed { keys }, out)
}
