ghost use Rattle.std.specs.Prelude.{◌≡◌, ℕ, List, None, Some, true, false};
ghost use Rattle.std.specs.Map.{lookup};
ghost use Rattle.std.specs.Str.{bytes_eq};
ghost use Rattle.st_base.specs.declared.fault.Fault.{Fault};
ghost use Rattle.st_base.specs.declared.order.Order.{Order};
ghost use Rattle.asm_objects.specs.FirstOfSource.{HasFault, IsFirst};
ghost use Rattle.asm_objects.specs.Given.{IsMade};
ghost use Rattle.asm_objects.specs.Layout.{end_of, start, table_of};
ghost use Rattle.asm_objects.specs.SourceMaking.{entries_of, parts_of};
ghost use Rattle.asm_objects.specs.Meaning.{fault_of, first_fault_of, high_of, low_of, rel_fits, twice};
ghost use Rattle.asm_objects.specs.Positions.{IsDefinition, IsPlace, IsTable};
ghost use Rattle.asm_objects.specs.declared.table.Definition.{Definition};
ghost use Rattle.asm_objects.specs.declared.table.Places.{Places};
ghost use Rattle.asm_objects.specs.declared.table.Table.{Table};
ghost use Rattle.asm_statements.specs.declared.statement.Part.{Part};
ghost use Rattle.asm_statements.specs.declared.statement.What.TheVariants as what;
ghost use Rattle.asm_statements.specs.declared.statement.Width.TheVariants as width;
ghost use Rattle.asm_statements.specs.declared.statement.Statement.{Statement};

/// (law) The fault that is answered is the first by line and number, and none is answered exactly where no statement has one.
pub fn first_fault_laws()
    ensures first { (ss : List Statement) (f : Fault) → first_fault_of ss ≡ Some f → IsFirst ss f }
    ensures none { (ss : List Statement) → first_fault_of ss ≡ None → (f : Fault) → HasFault (table_of ss) start ss f → ⊥ }
{}

/// (law) The place of a statement is the sum of the sizes of those before it in its segment, and it has no other; a name stands for its
/// first definition, and for no other.
pub fn place_laws()
    ensures places { (before : List Statement) → IsPlace before (end_of start before) }
    ensures table { (ss : List Statement) → IsTable ss (table_of ss) }
    ensures one_place { (before : List Statement) (p q : Places) → IsPlace before p → IsPlace before q → p ≡ q }
    ensures one_definition { (ss : List Statement) (name : List ℕ) (d e : Definition) → IsDefinition ss name d → IsDefinition ss name e → d ≡ e }
    ensures one_lookup { (ss : List Statement) (name : List ℕ) (t u : Table) → IsTable ss t → IsTable ss u → lookup (bytes_eq name) t.names ≡ lookup (bytes_eq name) u.names }
{}

/// (law) In the object of statements without a fault the bytes of each statement stand at its place, its entry and its relocation after
/// those of the statements before it, and the undefined names after all entries, in order of first use.
pub fn making_laws()
    ensures made { (order : Order) (ss : List Statement) → IsMade order ss (parts_of order ss) (entries_of ss) }
{}

/// (law) What each operand may be, in numbers: the last value that is in its range, and the first on each side that is not.
pub fn limits_are()
    ensures byte { (low_of width.Byte ≡ 128) × (high_of width.Byte ≡ 255) }
    ensures short { (low_of width.Short ≡ 32768) × (high_of width.Short ≡ 65535) }
    ensures long { (low_of width.Long ≡ 2147483648) × (high_of width.Long ≡ 4294967295) }
    ensures space { (t : Table) (p : Places) → (fault_of t p (what.Space 16777216) ≡ None) × (fault_of t p (what.Space 16777217) ≡ Some 71) }
    ensures power { (t : Table) (p : Places) → (fault_of t p (what.Align 12) ≡ None) × (fault_of t p (what.Align 13) ≡ Some 71) }
    ensures no_common { (t : Table) (p : Places) (name : List ℕ) → (fault_of t p (what.Comm name 0) ≡ Some 71) × (fault_of t p (what.Lcomm name 0) ≡ Some 71) }
    ensures least_common { (t : Table) (p : Places) (name : List ℕ) → (fault_of t p (what.Comm name 1) ≡ twice t p name) × (fault_of t p (what.Lcomm name 1) ≡ twice t p name) }
    ensures most_common { (t : Table) (p : Places) (name : List ℕ) → (fault_of t p (what.Comm name 4294967295) ≡ twice t p name) × (fault_of t p (what.Lcomm name 4294967295) ≡ twice t p name) }
    ensures over_common { (t : Table) (p : Places) (name : List ℕ) → (fault_of t p (what.Comm name 4294967296) ≡ Some 71) × (fault_of t p (what.Lcomm name 4294967296) ≡ Some 71) }
    ensures entry { (t : Table) (p : Places) → (fault_of t p (what.Entry 4294967295) ≡ None) × (fault_of t p (what.Entry 4294967296) ≡ Some 71) }
    ensures machine { (t : Table) (p : Places) → (fault_of t p (what.Machine 65535) ≡ None) × (fault_of t p (what.Machine 65536) ≡ Some 71) × (fault_of t p (what.Machine 1793) ≡ Some 71) }
    ensures bsize { (t : Table) (p : Places) → (fault_of t p (what.Bsize 4294967295) ≡ None) × (fault_of t p (what.Bsize 4294967296) ≡ Some 71) }
    ensures symbol { (q : Part) → (rel_fits (record { part = q; address = 4294967295; symbol = 16777215; flags = 13 }) ≡ true) × (rel_fits (record { part = q; address = 0; symbol = 16777216; flags = 8 }) ≡ false) }
    ensures address { (q : Part) → rel_fits (record { part = q; address = 4294967296; symbol = 4; flags = 0 }) ≡ false }
    ensures flags { (q : Part) → (rel_fits (record { part = q; address = 0; symbol = 4; flags = 14 }) ≡ false) × (rel_fits (record { part = q; address = 0; symbol = 4; flags = 16 }) ≡ false) }
{}
