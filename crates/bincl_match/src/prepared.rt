use st_base::List;

/// What refinement reads of a range.
#[derive(Debug, Drop)]
pub(crate) struct Prepared {
    /// Whether it stands alone: it is no candidate, or one of its numbers is neither 0 nor the file of a header.
    pub(crate) lone: bool,
    /// If not, a mark for each of its numbers: 0 for 0, and k + 1 for the file of the header whose range is at place k.
    pub(crate) marks: List<usize>,
}
