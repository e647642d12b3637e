ghost use Rattle.std.specs.Prelude.{◌≡◌, [], ◌∷◌, IfOk, All, Contains};
ghost use Rattle.std.specs.Bool.{OnTrue};
ghost use Rattle.std.specs.List.{IsDistinct};
ghost use Rattle.stab_symbols.specs.Keys as spec;
ghost use Rattle.stab_symbols.specs.Surface.{same_key, surface_of};

use crate::holds::all_hold;
use crate::stab_grammar_tests::{CALLS, StabGrammar};
use indexmap::IndexSet;
use st_base::{List, Memory, Text};
use stab_grammar::{
    DefinitionVisitor, Key, Num, NumberVisitor, TypeTree, key_of, print_placed, print_placed_by,
    print_type, visit_definitions, visit_numbers, visit_surface,
};
use std::alloc::Global;
use test_tables::Answer;

// ---- visitors that tell what they visit

/// Tells each number by its key, up to one of file 9, at which it stops.
#[derive(Drop)]
struct Numbers {
    out: Answer,
}

impl NumberVisitor for Numbers {
    type Stop = ();

    ghost visits = { λ _ _ _ _. Unit {0} };

    fn visit(&mut self, num: Num) -> Result<(), ()> {
        let key = key_of(&num);
        self.out.put_numbers(&[key.file, key.number]);
        if key.file == 9 { Err(()) } else { Ok(()) }
    }
}

/// Tells each definition by its key and its body, up to one of file 9, at which it stops.
#[derive(Drop)]
struct Bodies {
    out: Answer,
}

impl<'a> DefinitionVisitor<&'a TypeTree> for Bodies {
    type Stop = ();

    ghost visits = { λ _ _ _ _. Unit {0} };

    fn visit(&mut self, key: Key, body: &'a TypeTree) -> Result<(), ()> {
        self.out.put_numbers(&[key.file, key.number]);
        self.out.put(b"");
        let written = print_type(body, &mut self.out.text);
        self.out.wrote(written);
        if key.file == 9 { Err(()) } else { Ok(()) }
    }
}

/// Whether the walk stopped, and what was told.
fn put_told(walked: Result<(), ()>, told: &Answer, out: &mut Answer) {
    match walked {
        Ok(()) => out.put(b"all"),
        Err(()) => out.put(b"stopped"),
    }
    out.take(told);
}

fn put_all(tree: &TypeTree, out: &mut Answer) {
    let mut numbers = Numbers {
        out: Answer::new(out.alloc),
    };
    let walked = visit_numbers(tree, &mut numbers);
    put_told(walked, &numbers.out, out);
}

fn put_surface(tree: &TypeTree, out: &mut Answer) {
    let mut numbers = Numbers {
        out: Answer::new(out.alloc),
    };
    let walked = visit_surface(tree, &mut numbers);
    put_told(walked, &numbers.out, out);
}

fn put_definitions(tree: &TypeTree, out: &mut Answer) {
    let mut bodies = Bodies {
        out: Answer::new(out.alloc),
    };
    let walked = visit_definitions(tree, &mut bodies);
    put_told(walked, &bodies.out, out);
}

// ---- places

/// Stops at a number whose key is not listed.
#[derive(Drop)]
struct Listed<'a> {
    keys: &'a List<Key>,
}

impl<'a> NumberVisitor for Listed<'a> {
    ghost use Rattle.grammar_tests.specs.KeyListing.{GoesOnAtListed};

    type Stop = ();

    ghost visits = { GoesOnAtListed (λ listed. listed.keys.now) };

    fn visit(&mut self, num: Num) -> Result<(), ()> {
        if self.keys.items().contains(&key_of(&num)) {
            Ok(())
        } else {
            Err(())
        }
    }
}

/// The keys (0,2), (0,1) and (1,3).
fn three_keys(alloc: Global) -> Result<List<Key>, Memory>
    ensures { IfOk result (λ keys. keys ≡ spec.key_of (Num.Pair 0 2) ∷ (spec.key_of (Num.Pair 0 1) ∷ (spec.key_of (Num.Pair 1 3) ∷ []))) }
{
    let mut keys = List::new(alloc);
    keys.push(key_of(&Num::Pair(0, 2)))?;
    keys.push(key_of(&Num::Plain(1)))?;
    keys.push(key_of(&Num::Pair(1, 3)))?;
    Ok(keys)
}

/// Whether each number on the surface of a type is listed.
fn are_listed(tree: &TypeTree, keys: &List<Key>) -> bool
    ensures { OnTrue result (All (Contains keys.now) (surface_of tree.now)) }
{
    match visit_surface(tree, &mut Listed { keys }) {
        Ok(()) => true,
        Err(()) => false,
    }
}

/// With each number on the surface as its place among three keys.
fn put_placed(alloc: Global, tree: &TypeTree, out: &mut Text) -> Result<(), Memory> {
    let keys = three_keys(alloc)?;
    if are_listed(tree, &keys) {
        print_placed(tree, &keys, out)
    } else {
        out.extend(b"unlisted")
    }
}

/// The same three keys as a set.
fn three_places(alloc: Global) -> Result<IndexSet<Key>, Memory> {
    let mut places = IndexSet::new(alloc);
    places.insert(key_of(&Num::Pair(0, 2)))?;
    places.insert(key_of(&Num::Plain(1)))?;
    places.insert(key_of(&Num::Pair(1, 3)))?;
    Ok(places)
}

fn put_placed_by(alloc: Global, tree: &TypeTree, out: &mut Text) -> Result<(), Memory> {
    let places = three_places(alloc)?;
    print_placed_by(tree, &places, out)
}

/// What a walk over a type tells.
pub fn put_walk(call: &str, tree: &TypeTree, out: &mut Answer) {
    match call {
        "visit_numbers" => put_all(tree, out),
        "visit_surface" => put_surface(tree, out),
        "visit_definitions" => put_definitions(tree, out),
        "print_placed" => {
            let written = put_placed(out.alloc, tree, &mut out.text);
            out.wrote(written);
        }
        "print_placed_by" => {
            let written = put_placed_by(out.alloc, tree, &mut out.text);
            out.wrote(written);
        }
        _ => out.refuse(),
    }
}

// A number is told by its key, the file and the number there.
const ROWS: &[u8] = b"
# all numbers from left to right, those behind = too
visit_numbers x:t(0,7)=ar(3,1);0;9;*(2,5)=@s16;4 -> all 0 7 3 1 2 5 0 4
visit_numbers n:Ts8v:(0,1),0,32;next:(0,3)=*(0,2),32,32;; -> all 0 1 0 3 0 2
visit_numbers x:tr7=8;0;9; -> all 0 7 0 8
visit_numbers x:tkBf5 -> all 0 5
visit_numbers x:tu4a:1,0,8;b:2,0,8;; -> all 0 1 0 2
visit_numbers x:tea:0,; -> all .
visit_numbers x:txs(1,2): -> all .
visit_numbers x:t-7; -> all .
visit_numbers x:tR1;8;0; -> all .
# up to the first number of file 9
visit_numbers x:t(0,7)=ar(9,1);0;9;*(2,5) -> stopped 0 7 9 1
visit_numbers n:Ts8a:1,0,32;b:(9,3)=*2,32,32;c:4,0,8;; -> stopped 0 1 9 3

# those on the surface: none behind =
visit_surface x:t(0,7)=ar(3,1);0;9;4 -> all 0 7
visit_surface x:tar(3,1)=5;0;9;*(2,5)=@s16;4 -> all 3 1 2 5
visit_surface n:Ts8v:(0,1),0,32;next:(0,3)=*(0,2),32,32;; -> all 0 1 0 3
visit_surface x:t@s8;k(1,2)=3 -> all 1 2
visit_surface x:tar(9,1)=5;0;9;6 -> stopped 9 1
# a number of file 9 behind =
visit_surface x:t7=(9,1) -> all 0 7

# the definitions, outermost first and from left to right
visit_definitions x:t(0,7)=*(2,5)=@s16;4 -> all 0 7 *(2,5)=@s16;4 2 5 @s16;4
visit_definitions x:tar1=2;0;9;3=k4 -> all 0 1 2 0 3 k4
visit_definitions n:Ts8v:(0,1),0,32;next:(0,3)=*(0,2),32,32;; -> all 0 3 *(0,2)
visit_definitions x:t7 -> all .
visit_definitions x:tea:0,; -> all .
# up to the first of file 9
visit_definitions x:t7=(9,1)=*8=5 -> stopped 0 7 (9,1)=*8=5 9 1 *8=5

# places of the keys (0,2), (0,1) and (1,3)
print_placed n:Ts8v:(0,1),0,32;next:(1,3)=*(0,9),32,32;; -> s8v:#1,0,32;next:#2,32,32;;
print_placed x:t*(1,3)=1 -> *#2
print_placed x:tar1;0;9;k2 -> ar#1;0;9;k#0
print_placed x:t@s8;r(0,2)=7;-1;J; -> @s8;r#0;-1;J;
print_placed x:txsa: -> xsa:
# a number that is not among them
print_placed x:t*4 -> unlisted
print_placed x:tar1;0;9;(1,2) -> unlisted
print_placed_by n:Ts8v:(0,1),0,32;next:(1,3)=*(0,9),32,32;; -> s8v:#1,0,32;next:#2,32,32;;
print_placed_by x:t*(1,3)=1 -> *#2
print_placed_by x:tar1;0;9;k2 -> ar#1;0;9;k#0
print_placed_by x:t@s8;r(0,2)=7;-1;J; -> @s8;r#0;-1;J;
print_placed_by x:txsa: -> xsa:
";

#[test]
fn walks_answer(rt: HostRuntime) {
    all_hold(&rt, rt.alloc(), &mut StabGrammar, CALLS, ROWS);
}
