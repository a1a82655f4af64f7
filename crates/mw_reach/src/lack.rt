/// What is required and isn't so in a list of places.
#[derive(Clone, Copy, Debug, PartialEq, Eq)]
pub enum Lack {
    /// A slot's goal doesn't hold.
    Goal {
        /// The slot's number, from 1.
        slot: u16,
    },
    /// A location isn't in the list, and its slot wants all of its world.
    Location {
        /// The slot's number, from 1.
        slot: u16,
        /// The location's index in its world's table.
        place: u32,
    },
}
