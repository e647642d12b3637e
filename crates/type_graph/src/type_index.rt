ghost use Rattle.std.specs.Prelude.{◌≡◌, IfOk};
ghost use Rattle.std.specs.Option.{option_copied};
ghost use Rattle.type_graph.specs.Types.{definition_of, name_of};

use crate::indexing::{definitions, names};
use indexmap::IndexMap;
use st_base::Memory;
use stab_grammar::{Key, Symbol, TypeTree};
use stab_units::Unit;
use std::alloc::Global;
use std::marker::Model;

/// A unit with its definitions and its names of types by key, for whoever asks for many of them. Contracts see the unit.
#[derive(Drop)]
pub struct TypeIndex<'a> {
    unit: &'a Unit,
    definitions: IndexMap<Key, &'a TypeTree>,
    names: IndexMap<Key, &'a Symbol>,
}

impl<'a> Model for TypeIndex<'a> {
    ghost use Rattle.std.specs.Coded.{codes};
    ghost use Rattle.stab_symbols.specs.contracts.tree.TypeTree as tree;
    ghost use Rattle.stab_units.specs.declared.unit.Unit.{Unit};
    ghost use Rattle.type_graph.specs.TypeMaps.{HasDefinitions, HasNames};

    ghost Value = { Unit };

    ghost coded = { Prim.hlevel (codes, tree.the_row.coded) };

    ghost view = { λ index. index.unit.now };

    ghost invariant = { λ index. HasDefinitions index.unit.now index.definitions × HasNames index.unit.now index.names };
}

impl<'a> TypeIndex<'a> {
    /// The index of a unit. Takes memory for each key that is defined or named in it, and is refused only when out of memory.
    pub fn new(alloc: Global, unit: &'a Unit) -> Result<TypeIndex<'a>, Memory>
        ensures { IfOk result (λ index. index ≡ unit.now) }
    {
        Ok(TypeIndex {
            unit,
            definitions: definitions(alloc, unit)?,
            names: names(alloc, unit)?,
        })
    }

    /// The unit.
    pub fn unit(&self) -> &'a Unit
        ensures { result.now ≡ self.now }
    {
        self.unit
    }

    /// The definition of a key, as `definition` finds it in the unit. Takes no memory.
    pub fn definition(&self, key: Key) -> Option<&'a TypeTree>
        ensures { option_copied result ≡ definition_of self.now key }
    {
        self.definitions.get(&key).copied()
    }

    /// The symbol that names a key, as `type_name` finds it in the unit. Takes no memory.
    pub fn name(&self, key: Key) -> Option<&'a Symbol>
        ensures { option_copied result ≡ name_of self.now key }
    {
        self.names.get(&key).copied()
    }
}
