ghost use Rattle.std.specs.Prelude.{◌≡◌, ◌+◌, ◌<◌, ◌^◌};
ghost use Rattle.c_types.specs.Acts.{Acts};
ghost use Rattle.c_units.specs.Declarations as spec;
ghost use Rattle.c_types.specs.Sizes as sizes;

use crate::draft::Draft;
use crate::tags::NUMBER_LIMIT;
use c_types::{
    Alignment, Declared, Extent, SIZE_LIMIT, Typedef, put_static, put_typedef, put_variable,
    rounded,
};
use st_base::{C_AGAIN, C_INCOMPLETE, C_LARGE, Refused};

// A sum of sizes with one more, which is padded to 4.
pub fn padded_sum(sum: u32, extent: Extent) -> u64
    ensures value { result ≡ sum + sizes.padded extent.size }
    ensures small { result < 2 ^ 34 }
{
    u64::from(sum) + rounded(u64::from(extent.size), Alignment::Four)
}

impl Draft {
    /// A name of the unit is given, that of a typedef, a variable or a function. Refused as `C_AGAIN`, at the name, where it was given
    /// before.
    #[tactic(auto, unfolding(crate::specs::Declarations::give_name))]
    pub fn give_name(&mut self, name: &[u8], line: u64) -> Result<(), Refused>
        ensures { Acts (spec.give_name name.now line self.old) self.old self.new result }
    {
        let again = self.fault(C_AGAIN, line);
        self.names.give(name, again)
    }

    /// A typedef, with the next number of the file. Refused, at its `;`, as `C_INCOMPLETE` where an array has items without a size now,
    /// and as `C_LARGE` where its type is over the limit now, or its number.
    #[tactic(auto, unfolding(crate::specs::Declarations::add_typedef))]
    pub fn add_typedef(
        &mut self,
        name: &[u8],
        declared: &Declared,
        line: u64,
    ) -> Result<(), Refused>
        ensures { Acts (spec.add_typedef name.now declared.now line self.old) self.old self.new result }
    {
        let Some(size) = self.declared_size(declared) else {
            return Err(Refused::At(self.fault(C_INCOMPLETE, line)));
        };
        if self.is_large(size) || self.next > NUMBER_LIMIT {
            return Err(Refused::At(self.fault(C_LARGE, line)));
        }
        let number = self.next_number();
        put_typedef(&mut self.text, name, number, declared)?;
        self.typedefs.add(name, Typedef { number, size })?;
        self.next += 1;
        Ok(())
    }

    /// A variable that other units see. Refused, at its `;`, as `C_INCOMPLETE` where its type has no size now, and as `C_LARGE` where
    /// that is over the limit.
    #[tactic(auto, unfolding(crate::specs::Declarations::add_variable))]
    pub fn add_variable(
        &mut self,
        name: &[u8],
        declared: &Declared,
        line: u64,
    ) -> Result<(), Refused>
        ensures { Acts (spec.add_variable name.now declared.now line self.old) self.old self.new result }
    {
        let Some(extent) = self.declared_extent(declared) else {
            return Err(Refused::At(self.fault(C_INCOMPLETE, line)));
        };
        if extent.size > SIZE_LIMIT {
            return Err(Refused::At(self.fault(C_LARGE, line)));
        }
        put_variable(&mut self.text, name, declared, extent.size)?;
        Ok(())
    }

    /// A static variable. Refused as one that other units see is, and as `C_LARGE` also where the sizes of all static variables so far,
    /// each padded to 4, are over the limit together.
    #[tactic(auto, unfolding(crate::specs::Declarations::add_static))]
    pub fn add_static(&mut self, name: &[u8], declared: &Declared, line: u64) -> Result<(), Refused>
        ensures { Acts (spec.add_static name.now declared.now line self.old) self.old self.new result }
    {
        let Some(extent) = self.declared_extent(declared) else {
            return Err(Refused::At(self.fault(C_INCOMPLETE, line)));
        };
        let statics = padded_sum(self.statics, extent);
        if extent.size > SIZE_LIMIT || statics > u64::from(SIZE_LIMIT) {
            return Err(Refused::At(self.fault(C_LARGE, line)));
        }
        put_static(&mut self.text, name, declared, extent.size)?;
        self.statics = statics as u32;
        Ok(())
    }

    /// An `extern`, which gives nothing. Refused, at its `;`, as `C_INCOMPLETE` where an array has items without a size now, and as
    /// `C_LARGE` where its type has a size now that is over the limit. Takes no memory.
    #[tactic(auto, unfolding(crate::specs::Declarations::add_extern))]
    pub fn add_extern(&self, declared: &Declared, line: u64) -> Result<(), Refused>
        ensures { Acts (spec.add_extern declared.now line self.now) self.now self.now result }
    {
        match self.declared_size(declared) {
            None => Err(Refused::At(self.fault(C_INCOMPLETE, line))),
            Some(size) if self.is_large(size) => Err(Refused::At(self.fault(C_LARGE, line))),
            Some(_) => Ok(()),
        }
    }
}
