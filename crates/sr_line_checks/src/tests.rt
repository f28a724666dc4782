//! The tests, a module for each part of the program that they call.
mod accounts;
mod adapters;
mod answers;
mod certificates;
mod commands;
mod devices;
mod echo;
mod engine;
mod faults;
mod fixtures;
mod groups;
mod making;
mod memory;
mod stamps;
mod store;
mod watch;
mod words;
