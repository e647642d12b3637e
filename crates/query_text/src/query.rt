use st_base::Text;

/// A question about a world.
#[derive(Debug, Drop)]
pub enum Query {
    /// `units`: all units.
    Units,
    /// `files U`: the files of a unit.
    Files(u32),
    /// `tag U NAME`: the listing of a tag.
    TagNamed(u32, Text),
    /// `type U NAME`: the listing of a name of a type.
    TypeNamed(u32, Text),
    /// `number U F N`: the listing of a type number.
    Number(u32, u32, u32),
    /// `scope ADDR`: what is visible at an address.
    Scope(u32),
    /// `line ADDR`: the line of an address.
    Line(u32),
    /// `addresses FILE LINE`: the addresses of a line of a file.
    Addresses(Text, u16),
}
