use st_base::Text;

/// A file that is given: its name, as an include spells it, and its bytes.
#[derive(Drop)]
pub struct Source {
    pub name: Text,
    pub text: Text,
}

/// How far a given file has been read.
#[derive(Clone, Copy, Drop)]
pub enum Progress {
    /// No include of it was met.
    Unread,
    /// It is being read, or a header in it is.
    Open,
    /// It was read to its end.
    Done,
}
