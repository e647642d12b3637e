ghost use Rattle.std.specs.Prelude.{◌≡◌, [], Ok, OnOk};
ghost use Rattle.c_meaning.specs.Walking as spec;

use crate::walk::{Frame, Part, Walk};
use c_tokens::Token;
use c_units::{CType, Declared, Draft, Layout, Listed, Qualifiers, Stack, Word};
use st_base::{List, Memory, Text};
use std::alloc::Global;

const NO_QUALIFIERS: Qualifiers = Qualifiers {
    constant: false,
    volatile: false,
};

// The number of the basic type `void`.
pub(crate) const VOID: u32 = 10;

impl Part {
    /// Nothing is known but a type of this base. Takes no memory.
    pub(crate) fn known(alloc: Global, qualifiers: Qualifiers, base: CType) -> Part
        ensures { result ≡ spec.known qualifiers base }
    {
        Part {
            declared: Declared {
                qualifiers,
                base,
                stars: 0,
                lengths: List::new(alloc),
            },
            word: Word::Struct,
            tag: None,
            tag_line: 0,
            name: Text::new(alloc),
            name_line: 0,
            listed: Listed::new(alloc),
            below: false,
            value: None,
        }
    }

    /// Nothing is known. Takes no memory.
    pub(crate) fn unknown(alloc: Global) -> Part
        ensures { result ≡ spec.unknown }
    {
        Part::known(alloc, NO_QUALIFIERS, CType::basic(VOID))
    }

    // The name that is declared.
    pub(crate) fn set_name(&mut self, token: &Token<'_>) -> Result<(), Memory>
        ensures { OnOk result (self.new ≡ spec.with_name token.now.1 self.old) }
    {
        self.name.cut(0);
        self.name.extend(token.bytes)?;
        self.name_line = token.line;
        Ok(())
    }
}

impl Part {
    // The name of a choice.
    pub(crate) fn set_choice(&mut self, token: &Token<'_>) -> Result<(), Memory>
        ensures { OnOk result (self.new ≡ record self.old { name = token.now.1.text }) }
    {
        self.name.cut(0);
        self.name.extend(token.bytes)
    }

    // A star more; out of memory where they could not be counted, which no source reaches.
    pub(crate) fn add_star(&mut self) -> Result<(), Memory>
        ensures { OnOk result (self.new ≡ spec.starred self.old) }
    {
        self.declared.stars = self.declared.stars.checked_add(1).ok_or(Memory)?;
        Ok(())
    }
}

// ---- states of the walk

impl Walk {
    /// In front of an item. Takes no memory.
    pub(crate) fn new(alloc: Global, draft: Draft) -> Walk
        ensures { result ≡ spec.ready draft [] }
    {
        Walk {
            draft,
            frames: Stack::new(alloc),
            part: Part::unknown(alloc),
        }
    }

    // Nothing more is known of a declaration.
    pub(crate) fn forget(&mut self, alloc: Global)
        ensures { self.new ≡ spec.ready self.old.draft self.old.frames }
    {
        self.part = Part::unknown(alloc);
    }

    // Only a base is known.
    pub(crate) fn know(&mut self, alloc: Global, qualifiers: Qualifiers, base: CType)
        ensures { self.new ≡ spec.based qualifiers base self.old.draft self.old.frames }
    {
        self.part = Part::known(alloc, qualifiers, base);
    }

    // An item, or a part of one that no body is around, is over.
    pub(crate) fn end(&mut self, alloc: Global)
        ensures { spec.done self.old.draft ≡ Ok self.new }
    {
        self.frames = Stack::new(alloc);
        self.part = Part::unknown(alloc);
    }
}
