ghost use Rattle.std.specs.Prelude.{◌≡◌, ℕ, List, Result};
ghost use Rattle.stab_symbols.specs.declared.tree.TypeTree.{TypeTree as Tree};
ghost use Rattle.stab_symbols.specs.Definitions.{Definition, definitions_in};
ghost use Rattle.stab_symbols.specs.TypeWalks.{Visited};
ghost use Rattle.stab_symbols.specs.Opening.{Opens, tree_of, definitions_left, size_left};
ghost use Rattle.stab_symbols.specs.declared.definitions.Rest.TheVariants as rest;

use crate::keys::key_of;
use crate::tree::{Field, Key, TypeTree};

/// What stands for a type: a reference to it.
pub trait StandsForTree: Copy {
    // the type itself
    ghost tree: { Self → Tree };
}

impl<'a> StandsForTree for &'a TypeTree {
    ghost use Rattle.stab_symbols.specs.Opening.{tree_of};

    ghost tree = { tree_of };
}

/// What is done at each definition in a type, until it stops. It may keep the bodies that it visits: `T` is `&'a TypeTree`, a
/// reference for as long as the whole type is lent.
pub trait DefinitionVisitor<T: StandsForTree> {
    /// With what it stops.
    type Stop;

    // From the first state, the visit of the definition leaves the second state, and goes on or stops.
    ghost visits: { Self → Definition → Self → Result (Unit {0}) Self.Stop → Type 0 };

    /// Visits the definition of a key; an `Err` ends the walk.
    fn visit(&mut self, key: Key, body: T) -> Result<(), Self::Stop>
        ensures { visits self.old (record { key = key; body = T.tree body }) self.new result };
}

// ---- a type, opened one level

// The walk goes down a type one level at a time. It calls itself for the first of two parts alone, and goes on with the second, so that
// many fields take no deep recursion. It is written over any kind of part: a bound that names a lifetime can't be proved of a
// function that calls itself. `Rest` is the only kind.

/// What stands directly inside a part of a type, from left to right.
enum Opened<T, P> {
    Nothing,
    One(P),
    Two(P, P),
    /// The definition of a key, and the same as a part.
    Definition(Key, T, P),
}

/// A part of a type that can be opened.
trait Part: Copy {
    /// The type that a part is.
    type Tree: StandsForTree;

    // the definitions in a part, outermost first and from left to right
    ghost definitions: { Self → List Definition };

    // what grows less with each level
    ghost size: { Self → ℕ };

    /// What stands directly inside.
    fn open(self) -> Opened<Self::Tree, Self>
        ensures { Opens Self.Tree.tree definitions size self result };
}

// Visits the definitions in a part until the visitor stops.
fn walk<P: Part, V: DefinitionVisitor<P::Tree>>(part: P, visitor: &mut V) -> Result<(), V::Stop>
    ensures { Visited V.visits visitor.old (P.definitions part) visitor.new result }
{
    let mut left = part;
    loop {
        match left.open() {
            Opened::Nothing => return Ok(()),
            Opened::One(inner) => left = inner,
            Opened::Two(first, second) => {
                walk(first, visitor)?;
                left = second;
            }
            Opened::Definition(key, tree, body) => {
                visitor.visit(key, tree)?;
                left = body;
            }
        }
    }
}

/// A type, or the fields that are left of a structure or union.
#[derive(Clone, Copy)]
enum Rest<'a> {
    Tree(&'a TypeTree),
    Fields(&'a [Field]),
}

impl<'a> Part for Rest<'a> {
    ghost use Rattle.stab_symbols.specs.Opening.{definitions_left, size_left};

    type Tree = &'a TypeTree;

    ghost definitions = { definitions_left };

    ghost size = { size_left };

    fn open(self) -> Opened<&'a TypeTree, Rest<'a>> {
        match self {
            Rest::Fields([]) => Opened::Nothing,
            Rest::Fields([first, rest @ ..]) => Opened::Two(
                Rest::Tree(&first.tree),
                Rest::Fields(rest),
            ),
            Rest::Tree(tree) => open_tree(tree),
        }
    }
}

// A type, opened one level.
fn open_tree(tree: &TypeTree) -> Opened<&TypeTree, Rest<'_>>
    ensures { Opens tree_of definitions_left size_left (rest.Tree tree.entry) result }
{
    match tree {
        TypeTree::Def(num, body) => {
            let body = body.get();
            Opened::Definition(key_of(num), body, Rest::Tree(body))
        }
        TypeTree::Pointer(inner)
        | TypeTree::Function(inner)
        | TypeTree::Const(inner)
        | TypeTree::Volatile(inner)
        | TypeTree::Range(inner, _, _)
        | TypeTree::Sized(_, inner) => Opened::One(Rest::Tree(inner.get())),
        TypeTree::Array(index, _, _, item) => {
            Opened::Two(Rest::Tree(index.get()), Rest::Tree(item.get()))
        }
        TypeTree::Struct(_, fields) | TypeTree::Union(_, fields) => {
            Opened::One(Rest::Fields(fields.items()))
        }
        TypeTree::Ref(_)
        | TypeTree::Enum(_)
        | TypeTree::Cross(_, _)
        | TypeTree::Builtin(_)
        | TypeTree::Real(_, _, _) => Opened::Nothing,
    }
}

/// Visits the definitions in a type, outermost first and from left to right, until the visitor stops. Takes no memory of its own.
pub fn visit_definitions<'a, V: DefinitionVisitor<&'a TypeTree>>(
    tree: &'a TypeTree,
    visitor: &mut V,
) -> Result<(), V::Stop>
    ensures { Visited V.visits visitor.old (definitions_in tree.now) visitor.new result }
{
    walk(Rest::Tree(tree), visitor)
}
