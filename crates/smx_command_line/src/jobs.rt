//! The jobs that the program does.

use smx_run::Product;

/// A job of the program.
#[derive(Clone, Copy, Debug, PartialEq, Eq)]
pub enum Job {
    /// Runs the programs of the input and writes their transcript, or their fronts: how many entries and links each
    /// process sees at its end.
    Run {
        /// The number of workers, 1 to 64.
        workers: usize,
        /// Whether the fronts are written in place of the transcript.
        fronts: bool,
        /// Whether a fault of the text or of its drivers is explained.
        explain: bool,
    },
    /// Judges the transcript of the input and writes the verdict.
    Check {
        /// Whether the verdict, or a fault of the text or of its drivers, is explained.
        explain: bool,
    },
    /// Makes this product of the transcript of the input, and writes it.
    Make {
        /// A replay, a trace, a picture or a page.
        product: Product,
        /// Whether a fault of the text or of its drivers is explained.
        explain: bool,
    },
    /// Answers the lines of the input one by one, at once.
    Live {
        /// Whether a line that is not a command, or a fault of the driver table, is explained.
        explain: bool,
    },
}
