//! Texts that were typed in, and what the libraries make of them.

mod at_limits;
mod copied_values;
mod copies;
mod driver_counts;
mod entries;
mod faults;
mod opens_and_closes;
mod plain_values;
mod program_texts;
mod replies;
mod spelling;
mod sweeps;
mod transcript_texts;
