//! The laws of every run of the step relation. Their premises: no two rows or controls of the settings are of one
//! object, each row has a known common address, the window k is below 32,768, a queue takes some news, each state of
//! the run is sound, and each fragment is what its octets mean. A hub keeps them by its type.
ghost use Rattle.std.specs.Prelude.{List};
ghost use Rattle.gw_map.specs.Settings.{Setup};
ghost use Rattle.gw_steps.specs.Runs.{AtEach, Entry};
ghost use Rattle.gw_steps.specs.Premises.{IsSoundRun};
ghost use Rattle.law_clients.specs.Connections.{Connections};
ghost use Rattle.law_clients.specs.Promises.{Promises};

/// At each point of a run all promises hold.
pub fn runs_keep_promises()
    ensures { (setup : Setup) (past : List Entry) → IsSoundRun setup past → AtEach (Promises setup) past }
{}

/// At each point of a run: in a step without a fault an APDU closes its connection for the first cause that holds, or
/// else is taken; each STARTDT, STOPDT and TESTFR act that was taken is confirmed at most once and in order; a tick
/// closes a connection exactly where t1 has passed; a pump gives the first that is due of a confirmation, TESTFR act,
/// an I format and an S format, and nothing exactly where none is; and a step isn't made exactly for the fault that is
/// due, or, where memory may be wanted, for want of it.
pub fn connections_are_kept()
    ensures { (setup : Setup) (past : List Entry) → IsSoundRun setup past → AtEach (Connections setup) past }
{}
