//! What a token does to the walk: one method for each kind of act.

ghost use Rattle.std.specs.Prelude.{◌≡◌, Ok, OnOk};
ghost use Rattle.c_items.specs.Acting.{Did};
ghost use Rattle.c_meaning.specs.Walking as spec;

use crate::walk::{Frame, Walk};
use c_tokens::Token;
use c_units::{CType, Layout};
use st_base::{Memory, Refused};
use std::alloc::Global;

// ---- tags

impl Walk {
    // A tag is met.
    pub(crate) fn mention(&mut self, token: &Token<'_>) -> Result<(), Refused>
        ensures { Did (spec.tag_act token.now.1 self.old) self.new result }
    {
        let mention = self.draft.mention(self.part.word, token.bytes, token.line)?;
        self.part.tag = Some(mention);
        self.part.tag_line = token.line;
        Ok(())
    }

    // A tag that no body stands behind is the base.
    pub(crate) fn settle(&mut self, alloc: Global) -> Result<(), Memory>
        ensures { OnOk result (self.new ≡ spec.settled self.old) }
    {
        if let Some(mention) = self.part.tag {
            self.draft.cross(mention)?;
            let qualifiers = self.part.declared.qualifiers;
            self.know(alloc, qualifiers, CType::of_tag(mention));
        }
        Ok(())
    }

    // The name of a typedef is the base.
    pub(crate) fn find_typedef(&mut self, token: &Token<'_>) -> Result<(), Refused>
        ensures { Did (spec.typedef_act token.now.1 self.old) self.new result }
    {
        match self.draft.typedef_type(token.bytes, token.line) {
            Ok(base) => {
                self.part.declared.base = base;
                Ok(())
            }
            Err(fault) => Err(Refused::At(fault)),
        }
    }
}

// ---- bodies

impl Walk {
    // The body of the tag in front begins.
    pub(crate) fn begin_body(&mut self) -> Result<(), Refused>
        ensures { Did (spec.begin_act self.old) self.new result }
    {
        if let Some(mention) = self.part.tag {
            self.draft.begin_body(mention, self.part.tag_line)?;
        }
        Ok(())
    }

    // A body is open.
    pub(crate) fn open(&mut self, alloc: Global) -> Result<(), Memory>
        ensures { OnOk result (self.new ≡ spec.opened self.old self.old.draft) }
    {
        self.frames.push(Frame {
            qualifiers: self.part.declared.qualifiers,
            tag: self.part.tag,
            layout: Layout::new(alloc, self.part.word),
        })?;
        self.forget(alloc);
        Ok(())
    }

    // The body of the tag in front begins, and is open.
    pub(crate) fn open_body(&mut self, alloc: Global) -> Result<(), Refused>
        ensures { Did (spec.open_act self.old) self.new result }
    {
        self.begin_body()?;
        self.open(alloc)?;
        Ok(())
    }

    // A field of the innermost body is over.
    pub(crate) fn end_field(&mut self, alloc: Global, token: &Token<'_>) -> Result<(), Refused>
        ensures { Did (spec.field_end token.now.1 self.old self.old.frames) self.new result }
    {
        let Some(mut frame) = self.frames.pop() else {
            return Ok(());
        };
        self.draft.add_field(
            &mut frame.layout,
            self.part.name.bytes(),
            &self.part.declared,
            token.line,
        )?;
        self.frames.push(frame)?;
        self.forget(alloc);
        Ok(())
    }

    // The innermost body is over, and is the base.
    pub(crate) fn end_body(&mut self, alloc: Global, token: &Token<'_>) -> Result<(), Refused>
        ensures { Did (spec.body_end token.now.1 self.old self.old.frames) self.new result }
    {
        let Some(frame) = self.frames.pop() else {
            return Ok(());
        };
        let base = self
            .draft
            .close_body(alloc, frame.tag, &frame.layout, token.line)?;
        self.know(alloc, frame.qualifiers, base);
        Ok(())
    }
}

// ---- choices

impl Walk {
    // A choice is over.
    pub(crate) fn end_choice(&mut self, token: &Token<'_>) -> Result<(), Refused>
        ensures { Did (spec.choice_act token.now.1 self.old) self.new result }
    {
        self.draft.add_choice(
            &mut self.part.listed,
            self.part.name.bytes(),
            self.part.value,
            token.line,
        )?;
        self.part.below = false;
        self.part.value = None;
        self.part.name.cut(0);
        Ok(())
    }

    // The last choice is over, and the choices are the base.
    pub(crate) fn end_choices(&mut self, alloc: Global, token: &Token<'_>) -> Result<(), Refused>
        ensures { Did (spec.choices_act token.now.1 self.old) self.new result }
    {
        self.draft.add_choice(
            &mut self.part.listed,
            self.part.name.bytes(),
            self.part.value,
            token.line,
        )?;
        let base = self
            .draft
            .close_enum(alloc, self.part.tag, &self.part.listed)?;
        let qualifiers = self.part.declared.qualifiers;
        self.know(alloc, qualifiers, base);
        Ok(())
    }
}
