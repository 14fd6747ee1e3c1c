//! Tests of tables: the tests fill the tables, and compare what the tables then contain.

mod bindings;
mod bits;
mod flow_tables;
mod link_tables;
mod queue_calls;
mod queues;
mod rings;
mod routes;
mod stream_tables;
mod tried_again;
