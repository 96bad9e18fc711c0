//! Laws of the definitions: each is the contract of a function that does nothing.
ghost use Rattle.ps_input_laws.specs.Findings.{TextsAreFoundToBeOne};
ghost use Rattle.ps_input_laws.specs.Laws.{
  InputsAreSayable,
  ReadHistoriesAreOne,
  ReadHistoriesAreRead,
};
ghost use Rattle.ps_input_laws.specs.Readings.{
  EveryInputIsRead,
  EveryRequestIsRead,
  EveryScriptIsRead,
  EverySessionIsRead,
  FlattenedScriptsAreCommands,
};

/// What stands in an input that is read can be said with the table after it.
pub fn inputs_are_sayable()
    ensures { InputsAreSayable }
{}

/// The text of a history of an input that is read is read as a journal of its entries.
pub fn read_histories_are_read()
    ensures { ReadHistoriesAreRead }
{}

/// Two histories of inputs that are read, with one table, and that are printed with the same text have the same entries.
pub fn read_histories_are_one()
    ensures { ReadHistoriesAreOne }
{}

/// The text of a journal is found to be one thing at most.
pub fn texts_are_found_to_be_one()
    ensures { TextsAreFoundToBeOne }
{}

/// Every script of command lines is read as lines.
pub fn every_script_is_read()
    ensures { EveryScriptIsRead }
{}

/// A script that is read from files consists of command lines, and of no more than a script may have.
pub fn flattened_scripts_are_commands()
    ensures { FlattenedScriptsAreCommands }
{}

/// Texts whose script consists of command lines are read as an input or have a fault.
pub fn every_input_is_read()
    ensures { EveryInputIsRead }
{}

/// What the files of a request hold is read as an input or has a fault.
pub fn every_request_is_read()
    ensures { EveryRequestIsRead }
{}

/// What the files of an input hold is read as an input within the limits of a session or has a fault.
pub fn every_session_is_read()
    ensures { EverySessionIsRead }
{}
