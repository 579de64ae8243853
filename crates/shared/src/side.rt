// The two sides of the flow rules.

// Who may read, or who is trusted to write.
#[derive(Clone, Copy, Debug, PartialEq, Eq)]
pub enum Side {
    Reading,
    Trust,
}
