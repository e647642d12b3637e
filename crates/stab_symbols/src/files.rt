ghost use Rattle.std.specs.Prelude.{◌≡◌, map, IfOk};
ghost use Rattle.stab_symbols.specs.Files as spec;
ghost use Rattle.stab_symbols.specs.Files.{files_of, shape_of, renumbered, new_file};

use crate::copy::{copy_choices, copy_numeral};
use crate::limits::NO_FILE;
use crate::printing::{NumberWriter, put_bytes, put_number, put_number_and, put_symbol};
use crate::tree::{Field, Num, Symbol, TypeTree};
use crate::walk::{NumberVisitor, visit_numbers};
use st_base::{Boxed as Box, List, Memory, Text};
use std::alloc::Global;

// ---- the files, in printed order

// The files of the pairs that were visited.
#[derive(Drop)]
struct PairFiles {
    files: List<u32>,
}

impl NumberVisitor for PairFiles {
    ghost use Rattle.stab_symbols.specs.Files.{PutsFile};

    type Stop = Memory;

    ghost visits = { PutsFile };

    fn visit(&mut self, num: Num) -> Result<(), Memory> {
        match num {
            Num::Plain(_) => Ok(()),
            Num::Pair(file, _) => self.files.push(file),
        }
    }
}

/// The files of all pairs `(file,number)` of a symbol, in the order in which they are printed. A plain number has none.
pub fn numbers(alloc: Global, symbol: &Symbol) -> Result<List<u32>, Memory>
    ensures { IfOk result (λ files. files ≡ files_of symbol.now) }
{
    let mut visited = PairFiles {
        files: List::new(alloc),
    };
    visit_numbers(&symbol.tree, &mut visited)?;
    let PairFiles { files } = visited;
    Ok(files)
}

// ---- the shape

// Numbers without the digits of their files, `n` or `(,number)`.
#[derive(Drop)]
struct WithoutFiles;

impl NumberWriter for WithoutFiles {
    ghost use Rattle.std.specs.Prelude.{false};
    ghost use Rattle.stab_symbols.specs.Files.{num_shape};

    ghost number = { λ _. num_shape };

    ghost hides = { λ _. false };

    fn put(&self, num: &Num, out: &mut Text) -> Result<(), Memory> {
        match num {
            Num::Plain(number) => put_number(*number, out),
            Num::Pair(_, number) => {
                put_bytes(b"(,", out)?;
                put_number_and(*number, b')', out)
            }
        }
    }

    fn hides_definitions(&self) -> bool {
        false
    }
}

/// The spelling of a symbol without the digits of the file of each pair, as `(,2)` for `(1,2)`. A plain number stays.
pub fn shape(alloc: Global, symbol: &Symbol) -> Result<Text, Memory>
    ensures { IfOk result (λ t. t ≡ shape_of symbol.now) }
{
    let mut out = Text::new(alloc);
    put_symbol(symbol, &WithoutFiles, &mut out)?;
    Ok(out)
}

// ---- other files

// Item `file` of the list.
fn file_from(files: &List<u32>, file: u32) -> u32
    ensures { result ≡ new_file files.now file }
{
    match files.get(file as usize) {
        Some(new) => *new,
        None => NO_FILE,
    }
}

fn renumber_num(files: &List<u32>, num: &Num) -> Num
    ensures { result ≡ spec.num_with (new_file files.now) num.now }
{
    match num {
        Num::Plain(number) => Num::Plain(*number),
        Num::Pair(file, number) => Num::Pair(file_from(files, *file), *number),
    }
}

#[cycle(renumber)]
fn renumber_field(alloc: Global, files: &List<u32>, field: &Field) -> Result<Field, Memory>
    ensures { IfOk result (λ made. made ≡ spec.field_with (new_file files.now) field.now) }
{
    Ok(Field {
        name: field.name.copy(alloc)?,
        tree: renumber_tree(alloc, files, &field.tree)?,
        bit: field.bit,
        bits: field.bits,
    })
}

#[cycle(renumber)]
fn renumber_fields(
    alloc: Global,
    files: &List<u32>,
    fields: &[Field],
) -> Result<List<Field>, Memory>
    ensures { IfOk result (λ made. made ≡ map (spec.field_with (new_file files.now)) fields.now) }
{
    let mut made = List::new(alloc);
    for field in fields {
        made.push(renumber_field(alloc, files, field)?)?;
    }
    Ok(made)
}

#[cycle(renumber)]
fn renumber_boxed(
    alloc: Global,
    files: &List<u32>,
    tree: &TypeTree,
) -> Result<Box<TypeTree>, Memory>
    ensures { IfOk result (λ made. made ≡ spec.tree_with (new_file files.now) tree.now) }
{
    Ok(Box::new(alloc, renumber_tree(alloc, files, tree)?)?)
}

#[cycle(renumber)]
fn renumber_tree(alloc: Global, files: &List<u32>, tree: &TypeTree) -> Result<TypeTree, Memory>
    ensures { IfOk result (λ made. made ≡ spec.tree_with (new_file files.now) tree.now) }
{
    Ok(match tree {
        TypeTree::Ref(num) => TypeTree::Ref(renumber_num(files, num)),
        TypeTree::Def(num, inner) => TypeTree::Def(
            renumber_num(files, num),
            renumber_boxed(alloc, files, inner.get())?,
        ),
        TypeTree::Pointer(inner) => TypeTree::Pointer(renumber_boxed(alloc, files, inner.get())?),
        TypeTree::Function(inner) => TypeTree::Function(renumber_boxed(alloc, files, inner.get())?),
        TypeTree::Const(inner) => TypeTree::Const(renumber_boxed(alloc, files, inner.get())?),
        TypeTree::Volatile(inner) => TypeTree::Volatile(renumber_boxed(alloc, files, inner.get())?),
        TypeTree::Range(inner, low, high) => TypeTree::Range(
            renumber_boxed(alloc, files, inner.get())?,
            copy_numeral(alloc, low)?,
            copy_numeral(alloc, high)?,
        ),
        TypeTree::Array(index, low, high, item) => TypeTree::Array(
            renumber_boxed(alloc, files, index.get())?,
            copy_numeral(alloc, low)?,
            copy_numeral(alloc, high)?,
            renumber_boxed(alloc, files, item.get())?,
        ),
        TypeTree::Struct(size, fields) => {
            TypeTree::Struct(*size, renumber_fields(alloc, files, fields.items())?)
        }
        TypeTree::Union(size, fields) => {
            TypeTree::Union(*size, renumber_fields(alloc, files, fields.items())?)
        }
        TypeTree::Enum(choices) => TypeTree::Enum(copy_choices(alloc, choices.items())?),
        TypeTree::Cross(tag, name) => TypeTree::Cross(*tag, name.copy(alloc)?),
        TypeTree::Sized(bits, inner) => {
            TypeTree::Sized(*bits, renumber_boxed(alloc, files, inner.get())?)
        }
        TypeTree::Builtin(number) => TypeTree::Builtin(*number),
        TypeTree::Real(first, second, third) => TypeTree::Real(*first, *second, *third),
    })
}

/// The symbol in which the file f of each pair is item f of the list, or 65,536 where the list is shorter. All else stays.
pub fn renumber(alloc: Global, symbol: &Symbol, files: &List<u32>) -> Result<Symbol, Memory>
    ensures { IfOk result (λ s. s ≡ renumbered files.now symbol.now) }
{
    Ok(Symbol {
        name: symbol.name.copy(alloc)?,
        descriptor: symbol.descriptor,
        tree: renumber_tree(alloc, files, &symbol.tree)?,
    })
}
