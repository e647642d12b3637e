//! What the definitions say in words of places and counts. Nothing is done here: the contracts are the laws.

ghost use Rattle.std.specs.Prelude.{◌≡◌, ℕ, List, Option, ◌∷◌, ◌↔◌, Some, None, [], Contains, MatchOption, slice_get};
ghost use Rattle.scope_lines.specs.Blocks.{end_value, waiting, EndsWith, NeverEnds, IsWaiting};
ghost use Rattle.scope_lines.specs.Nearest.{nearest, IsNearest, AllAbove};
ghost use Rattle.scope_lines.specs.ListPlaces.{last_place, AreInOrder, Ascends, IsLast, NonePass};
ghost use Rattle.scope_lines.specs.Lines.{is_source, addresses, IsAddress};
ghost use Rattle.scope_lines.specs.Scopes.{own_of, blocks_of, statics_of, unit_at, IsOwn, IsBlock, IsUnitOf, NoUnit};
ghost use Rattle.scope_lines.specs.declared.role.Role.{Role as SomeRole};
ghost use Rattle.scope_lines.specs.declared.role.Role.TheVariants as role;
ghost use Rattle.scope_lines.specs.declared.scope.AddressOf.{AddressOf as SomeAddress};
ghost use Rattle.scope_lines.specs.declared.scope.Block.{Block as SomeBlock};
ghost use Rattle.stab_units.specs.declared.unit.Item.{Item as SomeItem};
ghost use Rattle.type_graph.specs.declared.world.World.{World as SomeWorld};

/// The unit of an address is the first that holds it. An N_LBRAC is closed at the first place after it up to which as many are closed as
/// opened. An item belongs to a function, to the block of an N_LBRAC or to the unit exactly where the rules say so by places, and items
/// are answered in ascending order. The blocks of a scope are the blocks of those N_LBRAC of the function that hold the address, each
/// once, in the order of the body. Without a function there are no items of one and no blocks.
pub fn scope_laws()
    ensures unit { (world : SomeWorld) (address : ℕ) → MatchOption (unit_at world address) (NoUnit world address) (λ p. IsUnitOf world address p.0 p.1) }
    ensures closed { (value : ℕ) (behind : List SomeRole) → MatchOption (end_value (role.Opens value) behind) (NeverEnds (role.Opens value ∷ behind)) (EndsWith (role.Opens value ∷ behind)) }
    ensures own { (function place : ℕ) (items : List SomeRole) → Contains (own_of (Some function) items) place ↔ IsOwn items function place }
    ensures vars { (before : List SomeRole) (place : ℕ) → Contains (waiting before) place ↔ IsWaiting before place }
    ensures blocks { (start function address : ℕ) (items : List SomeRole) (block : SomeBlock) → Contains (blocks_of start (Some function) address items) block ↔ ((place : ℕ) × IsBlock start items function address place block) }
    ensures blocks_order { (start function address : ℕ) (items : List SomeRole) → AreInOrder (IsBlock start items function address) 0 (blocks_of start (Some function) address items) }
    ensures statics { (items : List SomeRole) (place : ℕ) → Contains (statics_of items) place ↔ (slice_get items place ≡ Some role.Static) }
    ensures alone { (start address : ℕ) (items : List SomeRole) → (own_of None items ≡ []) × (blocks_of start None address items ≡ []) }
    ensures order { (function : Option ℕ) (items : List SomeRole) → Ascends 0 (own_of function items) × Ascends 0 (waiting items) × Ascends 0 (statics_of items) }
{}

/// The function and the line of an address have the greatest value not above it, and are the last of equals. The file of a line is named
/// by the last N_SOL before it. The addresses of a line of a file are the values of each N_SLINE of that line and file, and no others.
pub fn line_laws()
    ensures greatest { (address : ℕ) (values : List (Option ℕ)) → MatchOption (nearest address values) (AllAbove address values) (IsNearest address values) }
    ensures source { (before : List SomeItem) → MatchOption (last_place is_source before) (NonePass is_source before) (IsLast is_source before) }
    ensures addresses { (world : SomeWorld) (file : List ℕ) (line : ℕ) (found : SomeAddress) → Contains (addresses world file line) found ↔ IsAddress world file line found }
{}
