//! What the status shows of the program itself.

use cmd_line::VERSION;
use cmd_programs::commit_of;
use run_server::{Identity, ProcessFiles};

/// What is known of the program: the commit that it is built from, and where the system tells what it takes.
#[derive(Drop)]
pub struct Shown {
    commit: Option<String>,
    process: Option<ProcessFiles>,
}

impl Shown {
    /// What is known now, where the status is served; else nothing needs to be.
    pub fn of(rt: &HostRuntime, is_served: bool) -> Shown {
        if !is_served {
            return Shown {
                commit: None,
                process: None,
            };
        }
        Shown {
            commit: commit_of(rt),
            process: ProcessFiles::open(rt).ok(),
        }
    }

    /// Which gateway it is that serves by a settings file with this SHA-256, at a site with this name.
    pub fn identity<'a>(
        &'a self,
        site: Option<&'a str>,
        file: &'a str,
        digest: [u8; 32],
    ) -> Identity<'a> {
        let commit = match &self.commit {
            Some(commit) => Some(commit.as_str().trim()),
            None => None,
        };
        Identity {
            site,
            file,
            digest,
            listen: None,
            version: VERSION,
            commit,
        }
    }

    /// Where the system tells what the process takes, if it does.
    pub fn process(&self) -> Option<&ProcessFiles> {
        self.process.as_ref()
    }
}
