//! What the words ask for.

/// What the words of a command line ask for.
#[derive(Clone, Copy, Debug, PartialEq, Eq)]
pub enum Form {
    /// To lay a document out once.
    Scratch,
    /// To run the editors of a run document beside so many workers, 1 to 16.
    Run { workers: u32 },
    /// To run the run document that the generator makes of a size, 1 to 1,000, and a seed, 0 to 2,147,483,647,
    /// beside so many workers, 1 to 16.
    Gen { size: u32, seed: u32, workers: u32 },
    /// To say which piece of a document is seen at a point of the page, in px, 0 to 1,000,000.
    Hit { x: u32, y: u32 },
    /// To check a report of a run document.
    Check,
}
