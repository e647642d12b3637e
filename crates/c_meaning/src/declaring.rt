//! What the names and the ends of declarations do to the walk.

ghost use Rattle.c_items.specs.Acting.{Did};
ghost use Rattle.c_units.specs.Declarations.{give_name, add_typedef, add_variable, add_static};
ghost use Rattle.c_units.specs.Functions.{give_param, give_local, add_param, add_local};
ghost use Rattle.c_meaning.specs.Walking as spec;

use crate::walk::Walk;
use c_tokens::Token;
use st_base::Refused;
use std::alloc::Global;

// ---- names

impl Walk {
    // A name that is in no scope is declared.
    pub(crate) fn name_field(&mut self, alloc: Global, token: &Token<'_>) -> Result<(), Refused>
        ensures { Did (spec.declared_act token.now.1 self.old) self.new result }
    {
        self.settle(alloc)?;
        self.part.set_name(token)?;
        Ok(())
    }

    // A name of the unit is declared.
    pub(crate) fn name_unit(&mut self, alloc: Global, token: &Token<'_>) -> Result<(), Refused>
        ensures { Did (spec.name_act give_name token.now.1 (spec.settled self.old)) self.new result }
    {
        self.settle(alloc)?;
        self.draft.give_name(token.bytes, token.line)?;
        self.part.set_name(token)?;
        Ok(())
    }

    // A parameter is declared.
    pub(crate) fn name_param(&mut self, alloc: Global, token: &Token<'_>) -> Result<(), Refused>
        ensures { Did (spec.name_act give_param token.now.1 (spec.settled self.old)) self.new result }
    {
        self.settle(alloc)?;
        self.draft.give_param(token.bytes, token.line)?;
        self.part.set_name(token)?;
        Ok(())
    }

    // A local is declared.
    pub(crate) fn name_local(&mut self, alloc: Global, token: &Token<'_>) -> Result<(), Refused>
        ensures { Did (spec.name_act give_local token.now.1 (spec.settled self.old)) self.new result }
    {
        self.settle(alloc)?;
        self.draft.give_local(token.bytes, token.line)?;
        self.part.set_name(token)?;
        Ok(())
    }
}

// ---- ends

impl Walk {
    pub(crate) fn add_typedef(&mut self, alloc: Global, line: u64) -> Result<(), Refused>
        ensures { Did (spec.added add_typedef line self.old) self.new result }
    {
        self.draft
            .add_typedef(self.part.name.bytes(), &self.part.declared, line)?;
        self.end(alloc);
        Ok(())
    }

    pub(crate) fn add_variable(&mut self, alloc: Global, line: u64) -> Result<(), Refused>
        ensures { Did (spec.added add_variable line self.old) self.new result }
    {
        self.draft
            .add_variable(self.part.name.bytes(), &self.part.declared, line)?;
        self.end(alloc);
        Ok(())
    }

    pub(crate) fn add_static(&mut self, alloc: Global, line: u64) -> Result<(), Refused>
        ensures { Did (spec.added add_static line self.old) self.new result }
    {
        self.draft
            .add_static(self.part.name.bytes(), &self.part.declared, line)?;
        self.end(alloc);
        Ok(())
    }

    pub(crate) fn add_extern(&mut self, alloc: Global, line: u64) -> Result<(), Refused>
        ensures { Did (spec.extern_at line self.old) self.new result }
    {
        self.draft.add_extern(&self.part.declared, line)?;
        self.end(alloc);
        Ok(())
    }

    pub(crate) fn add_param(&mut self, alloc: Global, line: u64) -> Result<(), Refused>
        ensures { Did (spec.added add_param line self.old) self.new result }
    {
        self.draft
            .add_param(self.part.name.bytes(), &self.part.declared, line)?;
        self.end(alloc);
        Ok(())
    }

    pub(crate) fn add_local(&mut self, alloc: Global, line: u64) -> Result<(), Refused>
        ensures { Did (spec.added add_local line self.old) self.new result }
    {
        self.draft
            .add_local(self.part.name.bytes(), &self.part.declared, line)?;
        self.end(alloc);
        Ok(())
    }

    // The lines of a function, static or not, at its `(`.
    pub(crate) fn begin_function(&mut self, alloc: Global, is_static: bool) -> Result<(), Refused>
        ensures { Did (spec.function_act is_static self.old) self.new result }
    {
        self.draft.begin_function(
            alloc,
            is_static,
            self.part.name.bytes(),
            &self.part.declared,
            self.part.name_line,
        )?;
        self.end(alloc);
        Ok(())
    }
}

// ---- blocks

impl Walk {
    pub(crate) fn begin_block(&mut self, alloc: Global) -> Result<(), Refused>
        ensures { Did (spec.block_act self.old) self.new result }
    {
        self.draft.end_locals()?;
        self.draft.begin_block(alloc)?;
        self.end(alloc);
        Ok(())
    }

    pub(crate) fn add_statement(&mut self, alloc: Global, line: u64) -> Result<(), Refused>
        ensures { Did (spec.statement_at line self.old) self.new result }
    {
        self.draft.end_locals()?;
        self.draft.add_statement(line)?;
        self.end(alloc);
        Ok(())
    }

    pub(crate) fn end_block(&mut self, alloc: Global) -> Result<(), Refused>
        ensures { Did (spec.block_end self.old) self.new result }
    {
        self.draft.end_locals()?;
        self.draft.end_block()?;
        self.end(alloc);
        Ok(())
    }
}
