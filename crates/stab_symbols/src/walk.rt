ghost use Rattle.std.specs.Prelude.{◌≡◌, Result, map, flat_map};
ghost use Rattle.stab_symbols.specs.declared.tree.Num.{Num as NumValue};
ghost use Rattle.stab_symbols.specs.TypeWalks.{Visited, all_of_them, numbers_in, numbers_in_field, all_numbers, surface_numbers};

use crate::tree::{Field, Num, TypeTree};

/// What is done at each number of a type, until it stops.
pub trait NumberVisitor {
    /// With what it stops.
    type Stop;

    // From the first state, the visit of the number leaves the second state, and goes on or stops.
    ghost visits: { Self → NumValue → Self → Result (Unit {0}) Self.Stop → Type 0 };

    /// Visits a number; an `Err` ends the walk.
    fn visit(&mut self, num: Num) -> Result<(), Self::Stop>
        ensures { visits self.old num self.new result };
}

// ---- the walk; a flag says whether the numbers after an `=` are entered

#[cycle(numbers)]
fn walk_field<V: NumberVisitor>(
    field: &Field,
    entered: bool,
    visitor: &mut V,
) -> Result<(), V::Stop>
    ensures { Visited V.visits visitor.old (numbers_in_field entered field.now) visitor.new result }
{
    walk(&field.tree, entered, visitor)
}

#[cycle(numbers)]
fn walk_fields<V: NumberVisitor>(
    fields: &[Field],
    entered: bool,
    visitor: &mut V,
) -> Result<(), V::Stop>
    ensures { Visited V.visits visitor.old (flat_map all_of_them (map (numbers_in_field entered) fields.now)) visitor.new result }
{
    for field in fields {
        walk_field(field, entered, visitor)?;
    }
    Ok(())
}

#[cycle(numbers)]
fn walk<V: NumberVisitor>(tree: &TypeTree, entered: bool, visitor: &mut V) -> Result<(), V::Stop>
    ensures { Visited V.visits visitor.old (numbers_in entered tree.now) visitor.new result }
{
    match tree {
        TypeTree::Ref(num) => visitor.visit(*num),
        TypeTree::Def(num, body) => {
            visitor.visit(*num)?;
            if entered {
                walk(body.get(), entered, visitor)
            } else {
                Ok(())
            }
        }
        TypeTree::Pointer(inner)
        | TypeTree::Function(inner)
        | TypeTree::Const(inner)
        | TypeTree::Volatile(inner)
        | TypeTree::Range(inner, _, _)
        | TypeTree::Sized(_, inner) => walk(inner.get(), entered, visitor),
        TypeTree::Array(index, _, _, item) => {
            walk(index.get(), entered, visitor)?;
            walk(item.get(), entered, visitor)
        }
        TypeTree::Struct(_, fields) | TypeTree::Union(_, fields) => {
            walk_fields(fields.items(), entered, visitor)
        }
        TypeTree::Enum(_)
        | TypeTree::Cross(_, _)
        | TypeTree::Builtin(_)
        | TypeTree::Real(_, _, _) => Ok(()),
    }
}

/// Visits all numbers of a type, in the order in which they are printed, until the visitor stops. Takes no memory of its own.
pub fn visit_numbers<V: NumberVisitor>(tree: &TypeTree, visitor: &mut V) -> Result<(), V::Stop>
    ensures { Visited V.visits visitor.old (all_numbers tree.now) visitor.new result }
{
    walk(tree, true, visitor)
}

/// Visits the numbers on the surface of a type from left to right, without going into the definition of a number, until the
/// visitor stops. Takes no memory of its own.
pub fn visit_surface<V: NumberVisitor>(tree: &TypeTree, visitor: &mut V) -> Result<(), V::Stop>
    ensures { Visited V.visits visitor.old (surface_numbers tree.now) visitor.new result }
{
    walk(tree, false, visitor)
}
