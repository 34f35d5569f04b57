//! What is used of the system before the gateway serves.

use cmd_programs::System;
use std::rt::Env;

/// A system with an environment, which can be kept.
pub trait Environment: System + Env + Clone + Drop {}

impl<R: System + Env + Clone + Drop> Environment for R {}
