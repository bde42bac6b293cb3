//! The knowledge of each pass of the deque. No value of these types is made.
use crate::item::Item;
use std::collections::LinkedList;

/// The owner of a view. The filler pushes, begins and ends hands, and pops; a holder is a hand. A spent pass has handed
/// everything over.
pub enum Role {
    Filler,
    Holder,
    Spent,
}

/// The knowledge of one pass.
pub struct View {
    pub role: Role,
    /// The items that the filler has pushed, and for a hand all those that its feed was filled with.
    pub filled: LinkedList<Item>,
    /// The items that the filler has popped, and for a hand those that it has stolen.
    pub taken: LinkedList<Item>,
    /// The number of hands that the filler has begun; 0 for a hand.
    pub begun: u64,
    /// The lists of the hands that have ended, for the filler; none for a hand.
    pub ended: LinkedList<LinkedList<Item>>,
}
