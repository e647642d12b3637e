use crate::holds::all_hold;
use crate::stab_strings::{parsed, put_read};
use crate::trees::{put_descriptor, put_tree};
use crate::walks_tests::put_walk;
use st_base::{Fault, List, Memory, Refused, Text};
use stab_grammar::{
    Num, Symbol, TypeTree, key_of, letters_of, numbers, print, print_type, renumber, shape,
};
use std::alloc::Global;
use test_tables::{Answer, Calls, Given};

// ---- parsing

fn repeat(part: &[u8], times: u32, out: &mut Text) -> Result<(), Memory> {
    for _ in 0..times {
        out.extend(part)?;
    }
    Ok(())
}

/// Whether a string spells a symbol or only begins one.
fn begins(text: &[u8], out: &mut Answer) -> bool {
    let end = Fault::at(41, text.len() as u64);
    match parsed(out.alloc, text) {
        Ok(_) => true,
        Err(Refused::At(fault)) => fault == end,
        Err(Refused::Memory) => {
            out.lose();
            false
        }
    }
}

/// How many fronts of a string spell a symbol or begin one, before one that does neither.
fn parse_fronts(text: &[u8], out: &mut Answer) {
    let mut count = 0u64;
    for cut in 0..text.len() {
        if !begins(&text[..cut], out) {
            break;
        }
        count = count.wrapping_add(1);
    }
    out.put_number(count);
}

/// The front of a symbol, how many times, what stands before the inner type so many times, that type, and what stands behind it
/// so many times.
fn deep_text(given: &Given, out: &mut Text) -> Result<(), Memory> {
    out.extend(given.bytes(0))?;
    repeat(given.bytes(1), given.number32(0), out)?;
    out.extend(given.bytes(2))?;
    repeat(given.bytes(3), given.number32(0), out)
}

fn parse_deep(given: &Given, out: &mut Answer) {
    let mut text = Text::new(out.alloc);
    let written = deep_text(given, &mut text);
    out.wrote(written);
    put_read(text.bytes(), out);
}

// ---- what a symbol gives

/// Its name, its descriptor and its tree.
fn put_parts(symbol: &Symbol, out: &mut Answer) {
    out.put_name(symbol.name.bytes());
    put_descriptor(symbol.descriptor, out);
    put_tree(&symbol.tree, out);
}

fn put_key(num: &Num, out: &mut Answer) {
    let key = key_of(num);
    out.put_numbers(&[key.file, key.number]);
}

/// The key of its outermost number.
fn put_outermost(symbol: &Symbol, out: &mut Answer) {
    match &symbol.tree {
        TypeTree::Ref(num) => put_key(num, out),
        TypeTree::Def(num, _) => put_key(num, out),
        _ => out.refuse(),
    }
}

fn put_type(symbol: &Symbol, out: &mut Answer) {
    let written = print_type(&symbol.tree, &mut out.text);
    out.wrote(written);
}

fn put_shape(symbol: &Symbol, out: &mut Answer) {
    match shape(out.alloc, symbol) {
        Ok(shaped) => out.put(shaped.bytes()),
        Err(_) => out.lose(),
    }
}

/// How many files of pairs it has, and each.
fn put_files(symbol: &Symbol, out: &mut Answer) {
    match numbers(out.alloc, symbol) {
        Ok(files) => {
            out.put_number(files.len() as u64);
            out.put_numbers(files.items());
        }
        Err(_) => out.lose(),
    }
}

/// The files 10, 11 and 12.
fn three_files(alloc: Global) -> Result<List<u32>, Memory> {
    let mut files = List::new(alloc);
    for file in 10..13 {
        files.push(file)?;
    }
    Ok(files)
}

/// The symbol with 10 for file 0, 11 for file 1 and 12 for file 2.
fn renumbered(alloc: Global, symbol: &Symbol) -> Result<Symbol, Memory> {
    let files = three_files(alloc)?;
    renumber(alloc, symbol, &files)
}

fn put_renumbered(symbol: &Symbol, out: &mut Answer) {
    match renumbered(out.alloc, symbol) {
        Ok(other) => {
            let written = print(&other, &mut out.text);
            out.wrote(written);
        }
        Err(_) => out.lose(),
    }
}

fn put_about(call: &str, symbol: &Symbol, out: &mut Answer) {
    match call {
        "tree" => put_parts(symbol, out),
        "letters_of" => out.put_name(letters_of(symbol.descriptor)),
        "print_type" => put_type(symbol, out),
        "key_of" => put_outermost(symbol, out),
        "shape" => put_shape(symbol, out),
        "numbers" => put_files(symbol, out),
        "renumber" => put_renumbered(symbol, out),
        _ => put_walk(call, &symbol.tree, out),
    }
}

/// What the symbol gives that a string spells.
fn about(call: &str, text: &[u8], out: &mut Answer) {
    match parsed(out.alloc, text) {
        Ok(symbol) => put_about(call, &symbol, out),
        Err(_) => out.refuse(),
    }
}

#[derive(Drop)]
pub struct StabGrammar;

impl Calls for StabGrammar {
    fn answer(&mut self, call: &str, given: &Given, out: &mut Answer) {
        match call {
            "parse" => put_read(given.bytes(0), out),
            "parse_fronts" => parse_fronts(given.rest, out),
            "parse_deep" => parse_deep(given, out),
            _ => about(call, given.rest, out),
        }
    }
}

pub const CALLS: &[u8] = b"
parse : bytes
parse_fronts : rest
parse_deep : bytes number32 bytes bytes bytes
tree : rest
letters_of : rest
print_type : rest
key_of : rest
shape : rest
numbers : rest
renumber : rest
visit_numbers : rest
visit_surface : rest
visit_definitions : rest
print_placed : rest
print_placed_by : rest
";

const PARSED: &[u8] = b"
# no string
parse . -> fault 41 0
# no name holds a zero byte
parse 00':t7' -> fault 40 0
parse 'a'00':t7' -> fault 40 1
parse 'x:txs'00':' -> fault 40 5
parse 'x:txsab'00':' -> fault 40 7
parse 'x:ts4a'00':7,0,8;;' -> fault 40 6
parse 'x:te'00':0,;' -> fault 40 4
# nor does it stand elsewhere
parse 'a'00 -> fault 40 1
parse 'x:'00 -> fault 40 2
parse 'x:t'00 -> fault 40 3
parse 'x:t7'00 -> fault 40 4
parse 'x:tr7;0'00 -> fault 40 7
# any other byte may stand in a name
parse 01ff':t7' -> same
parse 'a'0a'b:t7' -> same
parse 'x:txs'c3a4':' -> same
parse 'x:ts4'800a':7,0,8;;' -> same
parse 'x:te'ff':0,;' -> same

# each front of a string with every form, of 137 bytes
parse_fronts node:Tt(1,2)=s16a:*k(1,2),0,32;b:ar@s8;3=r3;-128;0177;;0;J;Bf-7;,32,32;c:u4d:ered:0,blue:-1,;,0,32;e:R1;8;0;,0,64;f:xsnode:,0,0;;,64,32;; -> 137
# a front that goes wrong, behind eight that do not
parse_fronts x:t(0,1);;; -> 9

# 99 types round a number, and 100: the 101st type begins behind all fronts
parse_deep 'x:t' 99 '*' '7' . -> same
parse_deep 'x:t' 100 '*' '7' . -> fault 42 103
parse_deep 'x:t' 99 'f' '7' . -> same
parse_deep 'x:t' 100 'f' '7' . -> fault 42 103
parse_deep 'x:t' 99 'k' '7' . -> same
parse_deep 'x:t' 100 'k' '7' . -> fault 42 103
parse_deep 'x:t' 99 'B' '7' . -> same
parse_deep 'x:t' 100 'B' '7' . -> fault 42 103
parse_deep 'x:t' 99 '7=' '7' . -> same
parse_deep 'x:t' 100 '7=' '7' . -> fault 42 203
parse_deep 'x:t' 99 '(0,1)=' '7' . -> same
parse_deep 'x:t' 100 '(0,1)=' '7' . -> fault 42 603
parse_deep 'x:t' 99 '@s8;' '7' . -> same
parse_deep 'x:t' 100 '@s8;' '7' . -> fault 42 403
parse_deep 'x:t' 99 'r' '7' ';0;9;' -> same
parse_deep 'x:t' 100 'r' '7' ';0;9;' -> fault 42 103
parse_deep 'x:t' 99 'ar' '7' ';0;9;8' -> same
parse_deep 'x:t' 100 'ar' '7' ';0;9;8' -> fault 42 203
parse_deep 'x:t' 99 's4a:' '7' ',0,8;;' -> same
parse_deep 'x:t' 100 's4a:' '7' ',0,8;;' -> fault 42 403
parse_deep 'x:t' 99 'u4a:' '7' ',0,8;;' -> same
parse_deep 'x:t' 100 'u4a:' '7' ',0,8;;' -> fault 42 403
# the index of the 100th array is told, and the first field of the 100th structure
parse_deep 'x:t' 99 'ar7;0;9;' '7' . -> same
parse_deep 'x:t' 100 'ar7;0;9;' '7' . -> fault 42 797
parse_deep 'x:t' 99 's4a:7,0,8;b:' '7' ',0,8;;' -> same
parse_deep 'x:t' 100 's4a:7,0,8;b:' '7' ',0,8;;' -> fault 42 1195
# the outermost type stands elsewhere
parse_deep 'x:' 100 '7=' '8' . -> fault 42 202
parse_deep 'ab:Tt' 100 '*' '7' . -> fault 42 105
parse_deep 'x:tar7;0;9;' 98 '*' '7' . -> same
parse_deep 'x:tar7;0;9;' 99 '*' '7' . -> fault 42 110
parse_deep 'x:ts4a:7,0,8;b:' 99 'k' '7' . -> fault 42 114
parse_deep 'x:t' 24 '*fkB' '***7' . -> same
parse_deep 'x:t' 25 '*fkB' '7' . -> fault 42 103
# behind a hundred types a byte that begins a type is too deep, whatever follows
parse_deep 'x:t' 100 '*' '0' . -> fault 42 103
parse_deep 'x:t' 100 '*' '9' . -> fault 42 103
parse_deep 'x:t' 100 '*' '(0,1)' . -> fault 42 103
parse_deep 'x:t' 100 '*' '7=8' . -> fault 42 103
parse_deep 'x:t' 100 '*' '*7' . -> fault 42 103
parse_deep 'x:t' 100 '*' 'f7' . -> fault 42 103
parse_deep 'x:t' 100 '*' 'k7' . -> fault 42 103
parse_deep 'x:t' 100 '*' 'B7' . -> fault 42 103
parse_deep 'x:t' 100 '*' 'r7;0;9;' . -> fault 42 103
parse_deep 'x:t' 100 '*' 'ar7;0;9;8' . -> fault 42 103
parse_deep 'x:t' 100 '*' 's4;' . -> fault 42 103
parse_deep 'x:t' 100 '*' 'u4;' . -> fault 42 103
parse_deep 'x:t' 100 '*' 'e;' . -> fault 42 103
parse_deep 'x:t' 100 '*' 'xsa:' . -> fault 42 103
parse_deep 'x:t' 100 '*' '@s8;7' . -> fault 42 103
parse_deep 'x:t' 100 '*' '-7;' . -> fault 42 103
parse_deep 'x:t' 100 '*' 'R1;8;0;' . -> fault 42 103
parse_deep 'x:t' 100 '*' '(' . -> fault 42 103
parse_deep 'x:t' 100 '*' 'x;' . -> fault 42 103
parse_deep 'x:t' 100 '*' '-J' . -> fault 42 103
parse_deep 'x:t' 100 '*' '07' . -> fault 42 103
parse_deep 'x:t' 100 '*' '7;;' . -> fault 42 103
parse_deep 'x:t' 100 '*' 'a7' . -> fault 42 103
# any other byte is wrong there
parse_deep 'x:t' 100 '*' ';' . -> fault 40 103
parse_deep 'x:t' 100 '*' ':' . -> fault 40 103
parse_deep 'x:t' 100 '*' ',' . -> fault 40 103
parse_deep 'x:t' 100 '*' '=7' . -> fault 40 103
parse_deep 'x:t' 100 '*' ')' . -> fault 40 103
parse_deep 'x:t' 100 '*' '+7' . -> fault 40 103
parse_deep 'x:t' 100 '*' '/' . -> fault 40 103
parse_deep 'x:t' 100 '*' 20'7' . -> fault 40 103
parse_deep 'x:t' 100 '*' 't7' . -> fault 40 103
parse_deep 'x:t' 100 '*' 'J' . -> fault 40 103
parse_deep 'x:t' 100 '*' 'b7' . -> fault 40 103
parse_deep 'x:t' 100 '*' 'A' . -> fault 40 103
parse_deep 'x:t' 100 '*' . . -> fault 41 103
# a type without types in it may be the 100th
parse_deep 'x:t' 99 '*' '(0,1)' . -> same
parse_deep 'x:t' 99 '*' 's4;' . -> same
parse_deep 'x:t' 99 '*' 'u4;' . -> same
parse_deep 'x:t' 99 '*' 'e;' . -> same
parse_deep 'x:t' 99 '*' 'ea:0,;' . -> same
parse_deep 'x:t' 99 '*' 'xsa:' . -> same
parse_deep 'x:t' 99 '*' '-7;' . -> same
parse_deep 'x:t' 99 '*' 'R1;8;0;' . -> same
";

#[test]
fn strings_are_parsed(rt: HostRuntime) {
    all_hold(&rt, rt.alloc(), &mut StabGrammar, CALLS, PARSED);
}

const TREES: &[u8] = b"
# each form
tree int:t7 -> int typedef plain 7
tree int:t2147483647 -> int typedef plain 2147483647
tree int:t(0,1) -> int typedef pair 0 1
tree :t(65535,0) -> . typedef pair 65535 0
tree x:t(0,2)=*(0,1) -> x typedef pair 0 2 is pointer pair 0 1
tree x:t7=f8 -> x typedef plain 7 is function plain 8
tree x:tk3 -> x typedef const plain 3
tree x:tB4 -> x typedef volatile plain 4
tree x:t(0,1)=k*Bf(0,2) -> x typedef pair 0 1 is const pointer volatile function pair 0 2
tree char:t(0,2)=r(0,2);-128;0127; -> char typedef pair 0 2 is range pair 0 2 minus 128 plus 0127
tree x:tr7;J;-0; -> x typedef range plain 7 unbounded minus 0
tree x:tr7;0;J; -> x typedef range plain 7 plus 0 unbounded
tree x:tar1;0;J;2 -> x typedef array plain 1 plus 0 unbounded of plain 2
tree x:tar1;J;-9;ar3;0;1;4 -> x typedef array plain 1 unbounded minus 9 of array plain 3 plus 0 plus 1 of plain 4
tree x:ts0; -> x typedef struct 0 end
tree n:Ts8v:(0,1),0,32;next:(0,3)=*(0,2),32,16;; -> n tag struct 8 field v pair 0 1 0 32 field next pair 0 3 is pointer pair 0 2 32 16 end
tree x:tu4:7,1,2;; -> x typedef union 4 field . plain 7 1 2 end
tree x:te; -> x typedef enum end
tree x:teRED:0,:-1,; -> x typedef enum choice RED plus 0 choice . minus 1 end
tree x:txsnode: -> x typedef cross struct node
tree x:txuu: -> x typedef cross union u
tree x:txe: -> x typedef cross enum .
tree x:t@s16;5 -> x typedef sized 16 plain 5
tree x:t-16; -> x typedef builtin 16
tree x:tR1;8;0; -> x typedef real 1 8 0

# each descriptor
tree x:1 -> x stack plain 1
tree x:f1 -> x static-function plain 1
tree x:F1 -> x global-function plain 1
tree x:G1 -> x global plain 1
tree x:S1 -> x file-static plain 1
tree x:V1 -> x function-static plain 1
tree x:p1 -> x parameter plain 1
tree x:P1 -> x register-parameter plain 1
tree x:r1 -> x register plain 1
tree x:a1 -> x register-reference plain 1
tree x:v1 -> x reference plain 1
tree x:t1 -> x typedef plain 1
tree x:T1 -> x tag plain 1
tree x:Tt1 -> x tag-typedef plain 1
letters_of x:1 -> .
letters_of x:f1 -> f
letters_of x:F1 -> F
letters_of x:G1 -> G
letters_of x:S1 -> S
letters_of x:V1 -> V
letters_of x:p1 -> p
letters_of x:P1 -> P
letters_of x:r1 -> r
letters_of x:a1 -> a
letters_of x:v1 -> v
letters_of x:t1 -> t
letters_of x:T1 -> T
letters_of x:Tt1 -> Tt

# a type alone
print_type x:1 -> 1
print_type x:Tt(0,2)=r(0,2);-128;0127; -> (0,2)=r(0,2);-128;0127;

# a plain number is one of file 0
key_of x:t7 -> 0 7
key_of x:t(0,7) -> 0 7
key_of x:t(2,1) -> 2 1
key_of x:t(2,1)=*7 -> 2 1
key_of x:t(65535,2147483647) -> 65535 2147483647
";

#[test]
fn strings_spell_trees(rt: HostRuntime) {
    all_hold(&rt, rt.alloc(), &mut StabGrammar, CALLS, TREES);
}

const FILES: &[u8] = b"
# the files of pairs, in printed order: a definition, an array and a size attribute
numbers x:t(0,7)=ar(3,1);0;9;*(2,5)=@s16;4 -> 3 0 3 2
shape x:t(0,7)=ar(3,1);0;9;*(2,5)=@s16;4 -> x:t(,7)=ar(,1);0;9;*(,5)=@s16;4
renumber x:t(0,7)=ar(3,1);0;9;*(2,5)=@s16;4 -> x:t(10,7)=ar(65536,1);0;9;*(12,5)=@s16;4
# a structure and a union, and in them prefixes, a range and a name like the front of a pair
numbers x:ts8(1,:(1,2),0,32;b:k(0,3)=r(1,2);0;J;,0,32;c:u4d:f2,0,32;e:B(4,4),0,32;;,0,32;; -> 4 1 0 1 4
shape x:ts8(1,:(1,2),0,32;b:k(0,3)=r(1,2);0;J;,0,32;c:u4d:f2,0,32;e:B(4,4),0,32;;,0,32;; -> x:ts8(1,:(,2),0,32;b:k(,3)=r(,2);0;J;,0,32;c:u4d:f2,0,32;e:B(,4),0,32;;,0,32;;
renumber x:ts8(1,:(1,2),0,32;b:k(0,3)=r(1,2);0;J;,0,32;c:u4d:f2,0,32;e:B(4,4),0,32;;,0,32;; -> x:ts8(1,:(11,2),0,32;b:k(10,3)=r(11,2);0;J;,0,32;c:u4d:f2,0,32;e:B(65536,4),0,32;;,0,32;;
# choices, one of them with a name like the front of a pair
numbers x:texyz:5,(2,:0,; -> 0
shape x:texyz:5,(2,:0,; -> x:texyz:5,(2,:0,;
renumber x:texyz:5,(2,:0,; -> x:texyz:5,(2,:0,;
# a plain number has no file
numbers x:t11 -> 0
numbers x:t65535 -> 0
numbers x:(65535,0) -> 1 65535
renumber x:Tt2 -> x:Tt2
# the name of a symbol, and of a cross reference
shape (0,1):G(0,1) -> (0,1):G(,1)
renumber (0,1):G(0,1) -> (0,1):G(10,1)
shape x:txs(1,2): -> x:txs(1,2):
renumber x:txs(1,2): -> x:txs(1,2):
shape x:tR3;16;0; -> x:tR3;16;0;
renumber x:t-16; -> x:t-16;
";

#[test]
fn files_of_pairs_are_told(rt: HostRuntime) {
    all_hold(&rt, rt.alloc(), &mut StabGrammar, CALLS, FILES);
}
