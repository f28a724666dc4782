//! Tests by calls of the crates that make facts, nets and accounts of octets.
//!
//! Editors and nets are given to `drop`: so it is proved once how they are dropped, and not in each
//! test.

mod accounts;
mod database;
mod fixtures;
mod frames;
mod names;
mod nets;
mod pdus_read;
mod pdus_written;
mod sequences;
mod sub_tlvs;
