//! Halls with real threads, guests that come and go, and disks that fail.

mod deeds;
mod halls;
mod passes;
mod storms;
mod wakes;
