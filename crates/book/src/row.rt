use sets::Bundle;

/// Whether a row still takes part.
#[derive(Clone, Copy, PartialEq, Eq, Debug, Default)]
pub enum Mark {
    #[default]
    Standing,
    Withdrawn,
}

/// What one bidder asks for, and the value in cents that it declares. The row's number is the bidder's number.
#[derive(Clone, Copy, PartialEq, Eq, Debug, Default)]
pub struct Row {
    pub bundle: Bundle,
    pub value: u32,
    pub mark: Mark,
}
