use st_base::{List, Text};
use stab_grammar::Symbol;

/// What the joined string of a stab is.
#[derive(Debug, Drop)]
pub enum ItemText {
    /// The symbol that it spells.
    Symbol(Symbol),
    /// The name as it stands, of a stab that carries no symbol, or an empty string.
    Raw(Text),
}

/// A stab of a unit's body; a run of continued entries is one item, with the fields of its first entry.
#[derive(Debug, Drop)]
pub struct Item {
    pub kind: u8,
    pub other: u8,
    pub desc: u16,
    pub value: u32,
    pub text: ItemText,
}

/// A file of a unit: its name and all its symbols in order.
#[derive(Debug, Drop)]
pub struct HeaderFile {
    pub name: Text,
    pub symbols: List<Symbol>,
}

/// A compilation unit.
#[derive(Debug, Drop)]
pub struct Unit {
    pub name: Text,
    pub start: u32,
    pub end: u32,
    /// File 0 is the main source; file n is the n-th header.
    pub files: List<HeaderFile>,
    /// Its stabs in order, without source marks, header marks and type symbols.
    pub body: List<Item>,
}
