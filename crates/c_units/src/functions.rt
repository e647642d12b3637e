ghost use Rattle.std.specs.Prelude.{◌≡◌, OnOk, false};
ghost use Rattle.c_types.specs.Acts.{Acts};
ghost use Rattle.c_units.specs.Functions as spec;

use crate::declarations::padded_sum;
use crate::draft::{Draft, Scope};
use crate::tags::NUMBER_LIMIT;
use c_types::{
    Declared, Names, SIZE_LIMIT, Spelling, put_block_begin, put_block_end, put_function, put_local,
    put_numbered_local, put_param, put_statement,
};
use st_base::{C_AGAIN, C_INCOMPLETE, C_LARGE, Memory, Refused};
use std::alloc::Global;

/// The greatest line that a stab has room for.
pub const LINE_LIMIT: u64 = 65535;

/// The place of a function's first parameter in its frame.
const FIRST_PARAM: u32 = 8;

impl Draft {
    /// A function of this result begins, without parameters so far. Its arrays are those of its result, which has none. Refused as
    /// `C_LARGE`, at its name, where the line of the name is over 65,535.
    #[tactic(auto, unfolding(crate::specs::Functions::begin_function))]
    pub fn begin_function(
        &mut self,
        alloc: Global,
        is_static: bool,
        name: &[u8],
        declared: &Declared,
        line: u64,
    ) -> Result<(), Refused>
        ensures { Acts (spec.begin_function is_static name.now declared.now line self.old) self.old self.new result }
    {
        if line > LINE_LIMIT {
            return Err(Refused::At(self.fault(C_LARGE, line)));
        }
        put_function(&mut self.text, is_static, name, declared, line)?;
        self.offset = FIRST_PARAM;
        self.params = Names::new(alloc);
        Ok(())
    }

    /// The name of a parameter is given. Refused as `C_AGAIN`, at the name, where another parameter of the function has it.
    #[tactic(auto, unfolding(crate::specs::Functions::give_param))]
    pub fn give_param(&mut self, name: &[u8], line: u64) -> Result<(), Refused>
        ensures { Acts (spec.give_param name.now line self.old) self.old self.new result }
    {
        let again = self.fault(C_AGAIN, line);
        self.params.give(name, again)
    }

    /// A parameter. Refused, at the token behind it, as `C_INCOMPLETE` where its type has no size now, and as `C_LARGE` where that is
    /// over the limit, or the place of the parameter in the frame.
    #[tactic(auto, unfolding(crate::specs::Functions::add_param))]
    pub fn add_param(&mut self, name: &[u8], declared: &Declared, line: u64) -> Result<(), Refused>
        ensures { Acts (spec.add_param name.now declared.now line self.old) self.old self.new result }
    {
        let Some(extent) = self.declared_extent(declared) else {
            return Err(Refused::At(self.fault(C_INCOMPLETE, line)));
        };
        if extent.size > SIZE_LIMIT || self.offset > SIZE_LIMIT {
            return Err(Refused::At(self.fault(C_LARGE, line)));
        }
        put_param(&mut self.text, name, declared, self.offset)?;
        self.offset = padded_sum(self.offset, extent) as u32;
        Ok(())
    }

    /// A block begins. The locals of a function begin at 0 with its outermost block.
    #[tactic(auto, unfolding(crate::specs::Functions::begin_block))]
    pub fn begin_block(&mut self, alloc: Global) -> Result<(), Memory>
        ensures { OnOk result (self.new ≡ spec.begin_block self.old) }
    {
        // As many blocks as there are numbers have a text that no memory holds.
        let Some(blocks) = self.blocks.checked_add(1) else {
            return Err(Memory);
        };
        if self.scopes.is_empty() {
            self.offset = 0;
        }
        self.scopes.push(Scope {
            number: self.blocks,
            names: Names::new(alloc),
            begun: false,
        })?;
        self.blocks = blocks;
        Ok(())
    }

    /// The locals of the innermost block are over: where it begins is put into the text, once.
    #[tactic(auto, unfolding(crate::specs::Functions::end_locals))]
    pub fn end_locals(&mut self) -> Result<(), Memory>
        ensures { OnOk result (self.new ≡ spec.end_locals self.old) }
    {
        let Some(scope) = self.scopes.pop() else {
            return Ok(());
        };
        if !scope.begun {
            put_block_begin(&mut self.text, scope.number)?;
        }
        self.scopes.push(Scope {
            number: scope.number,
            names: scope.names,
            begun: true,
        })
    }

    /// The innermost block ends.
    #[tactic(auto, unfolding(crate::specs::Functions::end_block))]
    pub fn end_block(&mut self) -> Result<(), Memory>
        ensures { OnOk result (self.new ≡ spec.end_block self.old) }
    {
        match self.scopes.pop() {
            Some(scope) => put_block_end(&mut self.text, scope.number),
            None => Ok(()),
        }
    }

    /// A statement `;`. Refused as `C_LARGE`, at it, where its line is over 65,535.
    #[tactic(auto, unfolding(crate::specs::Functions::add_statement))]
    pub fn add_statement(&mut self, line: u64) -> Result<(), Refused>
        ensures { Acts (spec.add_statement line self.old) self.old self.new result }
    {
        if line > LINE_LIMIT {
            return Err(Refused::At(self.fault(C_LARGE, line)));
        }
        put_statement(&mut self.text, line)?;
        Ok(())
    }

    /// The name of a local is given in the innermost block. Refused as `C_AGAIN`, at the name, where another local of that block has it.
    #[tactic(auto, unfolding(crate::specs::Functions::give_local))]
    pub fn give_local(&mut self, name: &[u8], line: u64) -> Result<(), Refused>
        ensures { Acts (spec.give_local name.now line self.old) self.old self.new result }
    {
        let again = self.fault(C_AGAIN, line);
        let Some(mut scope) = self.scopes.pop() else {
            return Ok(());
        };
        let given = scope.names.give(name, again);
        self.scopes.push(scope)?;
        given
    }

    // Whether the type of a local takes a number, and the file has none left.
    fn lacks_number(&self, declared: &Declared) -> bool
        ensures { result ≡ spec.lacks_number declared.now self.now }
    {
        !declared.is_numbered() && self.next > NUMBER_LIMIT
    }

    // A local at the place that the frame has room for now.
    fn put_local_here(&mut self, name: &[u8], declared: &Declared) -> Result<(), Memory>
        requires { spec.lacks_number declared.now self.old ≡ false }
        ensures { OnOk result (self.new ≡ spec.local_here name.now declared.now self.old) }
    {
        if declared.is_numbered() {
            return put_local(&mut self.text, name, declared, self.offset);
        }
        let number = self.next_number();
        put_numbered_local(&mut self.text, name, number, declared, self.offset)?;
        self.next += 1;
        Ok(())
    }

    /// A local. Refused, at its `;`, as `C_INCOMPLETE` where its type has no size now, and as `C_LARGE` where that is over the limit,
    /// or the place of the local in the frame, or the number that a type takes which is not a number alone.
    #[tactic(auto, unfolding(crate::specs::Functions::add_local))]
    pub fn add_local(&mut self, name: &[u8], declared: &Declared, line: u64) -> Result<(), Refused>
        ensures { Acts (spec.add_local name.now declared.now line self.old) self.old self.new result }
    {
        let Some(extent) = self.declared_extent(declared) else {
            return Err(Refused::At(self.fault(C_INCOMPLETE, line)));
        };
        let offset = padded_sum(self.offset, extent);
        if extent.size > SIZE_LIMIT || offset > u64::from(SIZE_LIMIT) {
            return Err(Refused::At(self.fault(C_LARGE, line)));
        }
        if self.lacks_number(declared) {
            return Err(Refused::At(self.fault(C_LARGE, line)));
        }
        self.offset = offset as u32;
        self.put_local_here(name, declared)?;
        Ok(())
    }
}
