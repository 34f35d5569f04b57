//! What commands use of the system.

use std::fs::File;
use std::rt::{Clock, Files};

/// A system with memory, files, standard input, output and error, and a clock.
pub trait System: AllocGlobal + Files<File = File> + Input + Print + Eprint + Clock {}

impl<R: AllocGlobal + Files<File = File> + Input + Print + Eprint + Clock> System for R {}
