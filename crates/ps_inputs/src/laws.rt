//! Laws of the definitions: each is the contract of a function that does nothing.
ghost use Rattle.ps_inputs.specs.Laws.{MembersAreSound, ScriptsAreReadAsOne};

use ps_members::members_are_whole;

/// The command lines of a script are read as one list of lines at most, with one table of names after them.
pub fn scripts_are_read_as_one()
    ensures { ScriptsAreReadAsOne }
{}

/// The members of an input that is read are at most 64 performers and 16 observers, no two of them have one name, and each has its jobs or
/// units within the limits, where each job ends with `finish`.
pub fn members_are_sound()
    ensures { MembersAreSound }
{
    members_are_whole();
}
