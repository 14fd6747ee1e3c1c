//! The texts that the program makes from a transcript.

/// A text that the program makes from a transcript. A replay, a trace and a page perform the commands of the transcript
/// in order, and ignore its replies and its configuration. A picture shows its configuration, even if it is not legal.
#[derive(Clone, Copy, Debug, PartialEq, Eq)]
pub enum Product {
    /// The transcript that results, in the same version. So the replay of all entries of a legal transcript is this
    /// transcript.
    Replay {
        /// The number of entries to replay, from the first on; `None` for all.
        at: Option<usize>,
    },
    /// The transcript that results, with more lines: below each entry its changes, and in the configuration, below each
    /// queue, its `waits` line (why its first message can't move).
    Trace {
        /// Whether the `waits` lines of all queues are below each entry, too.
        waits: bool,
    },
    /// A picture in SVG.
    Svg,
    /// A picture in the language of Graphviz.
    Dot,
    /// An HTML page with a step for the beginning and one for each entry. The step of an entry has the lines of its
    /// trace, and a picture of the configuration after it.
    Page,
}
