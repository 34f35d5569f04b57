//! The law of every run of the step relation. Its premises: the run is sound, and the index of each control of the
//! settings has 16 bits. A hub keeps them by its type.
ghost use Rattle.std.specs.Prelude.{List};
ghost use Rattle.std.specs.List.{AllByRecursion};
ghost use Rattle.gw_map.specs.Settings.{Setup};
ghost use Rattle.gw_steps.specs.Runs.{AtEach, Entry};
ghost use Rattle.gw_steps.specs.Premises.{IsSoundRun};
ghost use Rattle.law_orders.specs.Bonds.{HasShortIndex};
ghost use Rattle.law_orders.specs.Commands.{AnswersCommands};

/// At each point of a run: an I format that is taken gives the command for a control that its ASDU carries, if it does,
/// and nothing else gives one. What is said of it is what is due, and an execute is accepted exactly where all that it
/// wants is there: its value is permitted, its outstation is up, no other client has the control selected, its own
/// client has in this session and for the same where the control wants that, and fewer than 16 orders wait for the
/// outstation. By these rules alone the history tells which executes were accepted, as which orders, and which of them
/// are pending.
pub fn commands_are_answered_as_due()
    ensures { (setup : Setup) (past : List Entry) → IsSoundRun setup past → AllByRecursion HasShortIndex setup.controls
        → AtEach (AnswersCommands setup) past }
{}
