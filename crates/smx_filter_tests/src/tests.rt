//! Tests, and their readers and writers.

mod broken;
mod devices;
mod faults;
mod jobs;
mod kept;
mod lives;
mod reading;
mod sessions;
mod tasks;
mod texts;
mod tried_again;
mod workers;
mod writing;
