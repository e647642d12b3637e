//! The word that a row begins with.

/// What a row does with the entries or asks of them.
#[derive(Clone, Copy, Drop)]
pub enum Head {
    Remark,
    World,
    Object,
    Image,
    Again,
    More,
    One,
    Many,
    Long,
    Query,
    Externals,
    Ranges,
    Unit,
    Definition,
    TypeName,
    FindTag,
    FindTypedef,
    Listing,
}

/// The head that a word spells.
pub fn head_of(word: &[u8]) -> Option<Head> {
    match word {
        b"#" => Some(Head::Remark),
        b"world" => Some(Head::World),
        b"object" => Some(Head::Object),
        b"image" => Some(Head::Image),
        b"again" => Some(Head::Again),
        b"+" => Some(Head::More),
        b"=" => Some(Head::One),
        b"*" => Some(Head::Many),
        b"x" => Some(Head::Long),
        b"?" => Some(Head::Query),
        b"externals" => Some(Head::Externals),
        b"ranges" => Some(Head::Ranges),
        b"unit" => Some(Head::Unit),
        b"definition" => Some(Head::Definition),
        b"type_name" => Some(Head::TypeName),
        b"find_tag" => Some(Head::FindTag),
        b"find_typedef" => Some(Head::FindTypedef),
        b"listing" => Some(Head::Listing),
        _ => None,
    }
}

/// Whether the row has an answer.
pub fn asks(head: Head) -> bool {
    !matches!(
        head,
        Head::Remark | Head::World | Head::More | Head::One | Head::Many | Head::Long
    )
}
