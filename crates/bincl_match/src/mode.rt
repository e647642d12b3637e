/// Which header ranges an image keeps.
#[derive(Clone, Copy, Debug, Drop, PartialEq, Eq)]
pub enum Mode {
    /// Every range, each with an instance of its own.
    Keep,
    /// The first of each class: of the ranges of several units that have one name and the same types, each type number naming the same
    /// type in its own unit.
    Merge,
}
