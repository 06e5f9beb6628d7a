/// The style of a reply's line.
#[derive(Clone, Copy, Debug, PartialEq, Eq, Drop)]
pub enum Style {
    /// Words, separated by spaces.
    Text,
    /// A JSON object.
    Json,
}
