// A link of a chain.

/// A link from one message to another.
#[derive(Drop)]
pub struct Link {
    /// the number of the destruction by which there is one, counted from 0
    pub destruction: usize,
    /// the places of the side messages among those learnt, counted from 0
    pub places: Vec<usize>,
}
