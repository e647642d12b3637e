/// What a call does with the content of a name.
#[derive(Clone, Copy, Debug, Drop, PartialEq, Eq)]
pub enum Access {
    /// It is loaded, for at most so many bytes.
    Load(u64),
    /// It is stored.
    Store,
}
