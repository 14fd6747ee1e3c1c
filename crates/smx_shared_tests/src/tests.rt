//! Tests of configurations, of systems (used alone, or shared by threads), and of runs.

mod at_limits;
mod callers;
mod configurations;
mod doors;
mod gates;
mod gathered;
mod hangups;
mod made;
mod refused_drivers;
mod reports;
mod runs;
mod seats;
mod shared_use;
mod stage;
mod sweeps;
mod systems;
mod three_seats;
mod tried_again;
mod verdicts;
mod worked;
