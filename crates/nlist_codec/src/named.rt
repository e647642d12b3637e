use st_base::Text;

/// An entry of the symbol table with its name in place of the name's offset; the name is empty where it has none.
#[derive(Debug, Drop)]
pub struct Named {
    pub kind: u8,
    pub other: u8,
    pub desc: u16,
    pub value: u32,
    pub name: Text,
}
