//! What the definitions of outlines say of any entries.

ghost use Rattle.std.specs.Prelude.{◌≡◌, ◌≤◌, ◌-◌, ℕ, List, Option, MatchOption, drop, length};
ghost use Rattle.st_base.specs.declared.fault.Fault.{Fault};
ghost use Rattle.nlist_codec.specs.declared.named.Named.{Named};
ghost use Rattle.unit_outlines.specs.declared.limits.TheConstants.{HEADER_LIMIT, STRING_LIMIT};
ghost use Rattle.unit_outlines.specs.declared.outline_types.Marks.{Marks};
ghost use Rattle.unit_outlines.specs.Nests.{closing, in_blocks, in_headers};
ghost use Rattle.unit_outlines.specs.Counts.{ClosesAt, NeverCloses};
ghost use Rattle.unit_outlines.specs.Marks.{back_in_headers, file_in, headers_in};
ghost use Rattle.unit_outlines.specs.Outlines.{OutlineFault, units_of};

/// A list of entries either has no fault of an outline, or exactly one that is reported.
pub fn one_outline()
    ensures some { (marks : Marks) (entries : List Named) → (f : Option Fault) × OutlineFault marks entries f }
    ensures one { (marks : Marks) (entries : List Named) (f g : Option Fault) → OutlineFault marks entries f → OutlineFault marks entries g → f ≡ g }
{}

/// A list of entries has no more units than entries.
pub fn few_spans()
    ensures { (text_end : ℕ) (entries : List Named) → length (units_of text_end entries) ≤ length entries }
{}

/// What closes a header range, and a block, is the first entry after it up to which ends have caught up with begins, before the next
/// N_SO; and nothing closes it where there is no such entry.
pub fn closing_law()
    ensures headers { (es : List Named) (more : ℕ) → MatchOption (closing in_headers es more) (NeverCloses in_headers es more) (ClosesAt in_headers es more) }
    ensures blocks { (es : List Named) (more : ℕ) → MatchOption (closing in_blocks es more) (NeverCloses in_blocks es more) (ClosesAt in_blocks es more) }
{}

/// The file of an entry by counts: going back from it, the number of the nearest N_BINCL at which as many were met as N_EINCL and one more,
/// before the N_SO of its unit, where headers are numbered from 1 in the order of their marks; and 0, the file of the unit itself, where there
/// is no such N_BINCL. `back` is what stands before the entry, nearest first, and `more` is how many N_EINCL were met before. After "The
/// stabs debug format", on include files.
pub fn file_law()
    ensures header { (back : List Named) (more n : ℕ) → ClosesAt back_in_headers back more n → file_in back more ≡ headers_in (drop (n - 1) back) }
    ensures unit { (back : List Named) (more : ℕ) → NeverCloses back_in_headers back more → file_in back more ≡ 0 }
{}

/// The limits of units, as numbers: a unit has at most 65,535 headers, and a joined string at most 1,048,576 bytes. This project's own.
pub fn limits_are()
    ensures headers { HEADER_LIMIT ≡ 65535 }
    ensures string { STRING_LIMIT ≡ 1048576 }
{}
