/// The order of the bytes of a number: the least significant first, or the most significant first.
#[derive(Clone, Copy, Debug, Drop, PartialEq, Eq)]
pub enum Order {
    Little,
    Big,
}
