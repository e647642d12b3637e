ghost use Rattle.std.specs.Prelude.{◌≡◌, ◌+◌, length};
ghost use Rattle.aout_object.specs.Objects.{ObjectFits};

use crate::parts::Parts;
use nlist_codec::Entry;
use st_base::{List, Text};
use std::marker::Model;

/// Parts, entries and a string table that spell a file.
#[derive(Debug, Drop)]
pub struct Object {
    pub(crate) parts: Parts,
    pub(crate) entries: List<Entry>,
    pub(crate) strings: Text,
}

impl Model for Object {
    ghost use Rattle.aout_object.specs.Objects.{Contents, ObjectFits};

    ghost Value = { Contents };

    ghost view = { λ o. record { parts = o.parts; entries = o.entries; strings = o.strings } };

    ghost invariant = { λ o. ObjectFits (record { parts = o.parts; entries = o.entries; strings = o.strings }) };
}

impl Object {
    /// The parts without the symbol table.
    pub fn parts(&self) -> &Parts
        ensures value { result.now ≡ self.now.parts }
        ensures lawful { ObjectFits self.now }
    {
        &self.parts
    }

    /// The entries of the symbol table, in order.
    pub fn entries(&self) -> &List<Entry>
        ensures { result.now ≡ self.now.entries }
    {
        &self.entries
    }

    /// The string table with its length word; empty where the file has none.
    pub fn strings(&self) -> &Text
        ensures { result.now ≡ self.now.strings }
    {
        &self.strings
    }

    /// The address of the end of text: the entry word and the size of text.
    pub fn text_end(&self) -> u32
        ensures { result ≡ self.now.parts.entry + length self.now.parts.text }
    {
        self.parts.entry + self.parts.text.bytes().len() as u32
    }
}
