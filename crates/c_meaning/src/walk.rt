use c_units::{Declared, Draft, Layout, Listed, Mention, Qualifiers, Stack, Whole, Word};
use st_base::Text;

/// A body that is open: the qualifiers in front of it, its tag if it has one, and its fields so far.
#[derive(Drop)]
pub struct Frame {
    pub qualifiers: Qualifiers,
    pub tag: Option<Mention>,
    pub layout: Layout,
}

/// What is known so far of the declaration that is being read, up to its innermost open body.
#[derive(Drop)]
pub struct Part {
    /// Its type: the qualifiers, the base, the stars and the lengths so far.
    pub declared: Declared,
    /// The word that its type began with.
    pub word: Word,
    /// A tag that no body, star or name stands behind yet.
    pub tag: Option<Mention>,
    /// The line of that tag.
    pub tag_line: u64,
    /// The name that is declared, or the name of a choice.
    pub name: Text,
    /// The line of the name that is declared.
    pub name_line: u64,
    /// The choices of an enum so far.
    pub listed: Listed,
    /// A `-` stands in front of the number of the choice.
    pub below: bool,
    /// The value that is written for the choice.
    pub value: Option<Whole>,
}

/// The state of the walk over an item: the draft so far, the open bodies, the innermost on top, and what is known of the declaration that is
/// being read.
#[derive(Drop)]
pub struct Walk {
    pub draft: Draft,
    pub frames: Stack<Frame>,
    pub part: Part,
}
