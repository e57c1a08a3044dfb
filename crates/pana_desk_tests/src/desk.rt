//! Threads at a desk: sessions, scanners and connections.

mod listening;
mod lists;
mod scanning;
mod sessions;
