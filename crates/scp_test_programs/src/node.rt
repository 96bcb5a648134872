//! A node as a process.
mod devices;
mod faults;
