ghost use Rattle.std.specs.Prelude.{◌≡◌, ◌<◌, ◌≤◌, ◌+◌, ◌++◌, ◌∷◌, [], length, IfOk, IfErr, OnOk, OnErr};
ghost use Rattle.st_base.specs.ByteOrder.{is_big};
ghost use Rattle.strtab.specs.StringTable.{HasNoZero};
ghost use Rattle.strtab.specs.Names as spec;
ghost use Rattle.strtab.specs.Builder.{found_in, IsPlaced};

use indexmap::IndexMap;
use indexmap::map::Entry;
use st_base::{
    FILE_LIMIT, Fault, Memory, Order, Refused, TOO_LARGE, Text, WORD_SIZE, set_first_word,
};
use std::alloc::Global;
use std::marker::Model;

/// The zero bytes that stand for the length word until `Builder::finish`.
const NO_WORD: [u8; WORD_SIZE] = [0; WORD_SIZE];

/// A string table that is being built: each distinct name stands in it once, in order of first use.
///
/// Contracts see the list of the names.
#[derive(Drop)]
pub struct Builder {
    alloc: Global,
    /// Each name, with its offset in the table.
    names: IndexMap<Vec<u8>, u32>,
    /// The table so far, after four zero bytes.
    table: Text,
}

impl Model for Builder {
    ghost use Rattle.std.specs.Prelude.{List, ℕ};
    ghost use Rattle.strtab.specs.Builder.{names_in, IsIndexed};

    ghost Value = { List (List ℕ) };

    ghost view = { λ b. names_in b.names.entries };

    ghost invariant = { λ b. IsIndexed b.names.entries b.table };
}

// Appends a name and its zero byte, or changes nothing.
fn append(table: &mut Text, name: &[u8]) -> Result<(), Refused>
    requires { length table.old ≤ FILE_LIMIT }
    ensures ok { OnOk result (table.new ≡ table.old ++ (name.now ++ 0 ∷ [])) }
    ensures fits { OnOk result (length table.old + (length name.now + 1) ≤ FILE_LIMIT) }
    ensures refused { IfErr result (spec.RefusesSize (length table.old + (length name.now + 1))) }
    ensures err { OnErr result (table.new ≡ table.old) }
{
    let before = table.bytes().len();
    if FILE_LIMIT - before as u64 <= name.len() as u64 {
        return Err(Refused::At(Fault::at(TOO_LARGE, FILE_LIMIT)));
    }
    table.extend(name)?;
    if table.push(0).is_err() {
        table.cut(before);
        return Err(Refused::Memory);
    }
    Ok(())
}

// The offset of a name that is there; a new name goes last, and its bytes go to the table's end.
fn place(
    names: &mut IndexMap<Vec<u8>, u32>,
    table: &mut Text,
    name: Vec<u8>,
) -> Result<u32, Refused>
    requires { length table.old ≤ FILE_LIMIT }
    ensures placed { IfOk result (λ strx. IsPlaced (found_in names.old.entries name.items) name
        names.old.entries names.new.entries table.old table.new strx) }
    ensures refused { IfErr result (spec.RefusesSize (length table.old + (length name.items + 1))) }
    ensures new { OnErr result (found_in names.old.entries name.items ≡ None) }
    ensures same_names { OnErr result (names.new.entries ≡ names.old.entries) }
    ensures same_table { OnErr result (table.new ≡ table.old) }
{
    match names.entry(name) {
        Ok(Entry::Occupied(entry)) => Ok(*entry.get()),
        Ok(Entry::Vacant(entry)) => {
            let strx = table.bytes().len() as u32;
            match append(table, entry.key().as_slice()) {
                Ok(()) => {
                    entry.insert(strx);
                    Ok(strx)
                }
                Err(why) => {
                    // Gives the map back as it was: of an entry that is dropped a proof knows nothing.
                    let _name = entry.into_key();
                    Err(why)
                }
            }
        }
        Err(_) => Err(Refused::Memory),
    }
}

impl Builder {
    /// A table without names. Takes memory for its length word.
    pub fn new(alloc: Global) -> Result<Builder, Memory>
        ensures { IfOk result (λ b. b ≡ []) }
    {
        Ok(Builder {
            alloc,
            names: IndexMap::new(alloc),
            table: Text::of(alloc, &NO_WORD)?,
        })
    }

    /// Adds a name, and answers its offset: where it stands already, else the table's end, where it goes
    /// now. An empty name takes no place and has offset 0. The condition is that the name has no zero byte.
    ///
    /// Refused as `TOO_LARGE`, at place `FILE_LIMIT`, exactly where the table would have more bytes; out of
    /// memory is an answer of its own. A refusal changes nothing. The name is looked up once.
    pub fn add(&mut self, name: &[u8]) -> Result<u32, Refused>
        requires { HasNoZero name.now }
        ensures names { OnOk result (self.new ≡ spec.added self.old name.now) }
        ensures strx { IfOk result (λ strx. strx ≡ spec.offset_of self.new name.now) }
        ensures fits { spec.size_of self.new ≤ FILE_LIMIT }

        // A fault comes only where the table would pass the limit, and then it is this one.
        ensures refused { IfErr result (spec.RefusesSize
            (spec.size_of (spec.added self.old name.now))) }
        ensures unchanged { OnErr result (self.new ≡ self.old) }
    {
        let alloc = self.alloc;
        if name.is_empty() {
            return Ok(0);
        }
        let key = Vec::from_slice(alloc, name)?;
        place(&mut self.names, &mut self.table, key)
    }

    /// The table, in this byte order: its length word, and then each name with its zero byte, in order of
    /// first use. Takes no memory, since the word is written over the first four bytes.
    pub fn finish(self, order: Order) -> Text
        ensures table { result ≡ spec.table_of (is_big order) self }
        ensures lawful { spec.AreNames self }
        ensures fits { spec.size_of self ≤ FILE_LIMIT }
    {
        let Builder {
            names: _,
            mut table,
            alloc: _,
        } = self;
        let size = table.bytes().len() as u32;
        set_first_word(order, table.bytes_mut(), size);
        table
    }
}
