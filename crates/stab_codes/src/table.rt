ghost use Rattle.std.specs.Prelude.{◌≡◌, ◌≢◌, ◌↔◌, ℕ, List, map, IsTrue};
ghost use Rattle.std.specs.List.{All, AllPairs};
ghost use Rattle.std.specs.Option.{option_copied};
ghost use Rattle.st_base.specs.Stabs.{is_stab};
ghost use Rattle.stab_codes.specs.Segments.{segment_of};
ghost use Rattle.stab_codes.specs.Table.{table, code_name, code_of, carries_symbol};

use crate::code::{
    N_BINCL, N_EINCL, N_EXCL, N_FUN, N_GSYM, N_LBRAC, N_LCSYM, N_LSYM, N_MAIN, N_OPT, N_PSYM,
    N_RBRAC, N_ROSYM, N_RSYM, N_SLINE, N_SO, N_SOL, N_STSYM,
};

// A `match` over the table of stab codes: `name of` and `symbol of` a code, `code of` a name. The rows stand here alone, in the
// order of the codes: the code, its name, and whether it carries a symbol.
macro_rules! look_up {
    ($sought:ident of $given:expr) => {
        look_up!($sought of $given, in
            N_GSYM b"N_GSYM" true,
            N_FUN b"N_FUN" true,
            N_STSYM b"N_STSYM" true,
            N_LCSYM b"N_LCSYM" true,
            N_MAIN b"N_MAIN" false,
            N_ROSYM b"N_ROSYM" true,
            N_OPT b"N_OPT" false,
            N_RSYM b"N_RSYM" true,
            N_SLINE b"N_SLINE" false,
            N_SO b"N_SO" false,
            N_LSYM b"N_LSYM" true,
            N_BINCL b"N_BINCL" false,
            N_SOL b"N_SOL" false,
            N_PSYM b"N_PSYM" true,
            N_EINCL b"N_EINCL" false,
            N_LBRAC b"N_LBRAC" false,
            N_EXCL b"N_EXCL" false,
            N_RBRAC b"N_RBRAC" false,
        )
    };
    (name of $given:expr, in $($code:ident $name:literal $carries:literal,)*) => {
        match $given {
            $($code => Some($name),)*
            _ => None,
        }
    };
    (code of $given:expr, in $($code:ident $name:literal $carries:literal,)*) => {
        match $given {
            $(name if name == $name.as_slice() => Some($code),)*
            _ => None,
        }
    };
    (symbol of $given:expr, in $($code:ident $name:literal $carries:literal,)*) => {
        match $given {
            $($code => $carries,)*
            _ => false,
        }
    };
}

/// The name of a stab code, as `N_SO` for 0x64; none for a code that is not in the table. Takes no memory. After "The stabs debug
/// format", its table of stab types.
#[tactic(auto, unfolding(crate::specs::Table::code_name))]
pub fn code_name(code: u8) -> Option<&'static [u8]>
    ensures { option_copied result ≡ code_name code }
{
    look_up!(name of code)
}

/// The stab code of a name, in upper case as the table has it; none for every other name. Takes no memory. After "The stabs
/// debug format", its table of stab types.
#[tactic(auto, unfolding(crate::specs::Table::code_of))]
pub fn code_of(name: &[u8]) -> Option<u8>
    ensures { result ≡ code_of name.now }
{
    look_up!(code of name)
}

/// Whether the name of an entry of this kind is a stab string that spells a symbol. The names of all other entries are read as
/// they are. Takes no memory. After "The stabs debug format".
#[tactic(auto, unfolding(crate::specs::Table::carries_symbol))]
pub fn carries_symbol(kind: u8) -> bool
    ensures { result ≡ carries_symbol kind }
{
    look_up!(symbol of kind)
}

/// The table is one to one: the two look-ups are inverse to each other and find each row, and no code and no name stands in it
/// twice. Each code is one of a stab, and moves with the segment that its bits name.
#[tactic(auto, unfolding(crate::specs::Table::code_name, crate::specs::Table::code_of, crate::specs::Table::carries_symbol, crate::specs::Segments::segment_of))]
pub fn table_laws()
    ensures inverse { (code : ℕ) (name : List ℕ) → (code_name code ≡ Some name) ↔ (code_of name ≡ Some code) }
    ensures by_code { All (λ row. code_name row.code ≡ Some row.name) table }
    ensures by_name { All (λ row. code_of row.name ≡ Some row.code) table }
    ensures symbols { All (λ row. carries_symbol row.code ≡ row.carries) table }
    ensures codes { AllPairs (λ a b. a ≢ b) (map (λ row. row.code) table) }
    ensures names { AllPairs (λ a b. a ≢ b) (map (λ row. row.name) table) }
    ensures segments { All (λ row. segment_of row.code ≡ row.moves_with) table }
    ensures stabs { All (λ row. IsTrue (is_stab row.code)) table }
{}
