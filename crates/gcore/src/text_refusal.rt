use gc_base::Place;

/// Why a text is no query file, and where.
#[derive(Clone, Copy, Debug, PartialEq, Eq)]
pub enum TextRefusal {
    /// The bytes are not UTF-8. The place is just after the longest front that is.
    NotUtf8(Place),
    /// A character begins no token, or a backslash in a text begins no escape.
    BadCharacter(Place),
    /// A text in quotes is never closed. The place is that of its opening quote.
    OpenText(Place),
    /// A number is above the limit. The place is that of its first digit.
    NumberTooLarge(Place),
    /// The brackets are too deep from the token at this place on.
    TooDeep(Place),
    /// The token at this place, or the end of the text, cannot stand there.
    Syntax(Place),
}
