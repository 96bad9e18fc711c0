//! What the program says of itself.

/// The modes, each with its options, their ranges and defaults, and an example.
pub const USAGE: &str = "\
plansys session --domain FILE --script FILE [--workers N] [--budget N] [--replans N] [--ordered] [--reports] [MEMBER ..]
    Does the lines of a script over a domain, with the runs that they open, and writes the journal. A line `source FILE` stands for
    the lines of that file, on at most four levels, and `quit` ends the script. Each MEMBER is the file of a performer, which does acts
    of runs, or of an observer, which edits beside them.
    --workers N   how many workers a run has, from 1 to 16; 2 if it isn't given
    --budget N    how many states a search for a plan may reach before it gives up, from 1 to 200000; 20000 if it isn't given
    --replans N   how often a run's plan may be made anew, from 0 to 8; 3 if it isn't given
    --ordered     one worker, and members take turns in the order of the words: then the journal is a function of the input
    --reports     after the journal, the reports of the performers to standard error, and how many units no report tells of
    plansys session --domain samples/rooms/domain.pddl --script samples/rooms/script samples/rooms/asker samples/rooms/charger samples/rooms/mover
plansys check --domain FILE
    Reads a domain, and writes it in its canonical text.
    plansys check --domain samples/rooms/domain.pddl
plansys validate --domain FILE --script FILE --plan FILE
    Does the edits of a script over a domain, and says whether the plan reaches the goal that they set: `valid`, or what is
    wrong with it.
    plansys validate --domain samples/rooms/domain.pddl --script samples/rooms/goal --plan samples/rooms/plan
plansys plan --domain FILE --script FILE [--budget N]
    Does the edits of a script over a domain, and searches for a plan that reaches the goal that they set, in three ways at once: by
    levels, by the landmarks of the goal, and by its parts. It writes the shortest plan found as plan text, which `run plan` reads,
    after a line with the name of the search; or `no goal`, `no plan`, `spent` or `too many`.
    --budget N    how many states each search may reach before it gives up, from 1 to 200000; 20000 if it isn't given
    plansys plan --domain samples/rooms/domain.pddl --script samples/rooms/goal
plansys replay --domain FILE --script FILE --journal FILE [--budget N] [--replans N] [MEMBER ..]
    Says whether a journal is one that a session of this domain, script and members may write: `legal`, or the line at which it isn't.
    A journal of version 2 says its budget and its number of new plans itself; these are of the session of one of version 1:
    --budget N    how many states a search for a plan may reach before it gives up, from 1 to 200000; 20000 if it isn't given
    --replans N   how often a run's plan may be made anew, from 0 to 8; 3 if it isn't given
    plansys replay --domain samples/rooms/domain.pddl --script samples/rooms/run --journal samples/rooms/journal samples/rooms/asker samples/rooms/charger samples/rooms/mover
plansys migrate --domain FILE --script FILE --journal FILE [--budget N] [--replans N] [MEMBER ..]
    Judges a journal as `replay` does, and writes it in version 2 where it is legal; else the line at which it isn't.
    plansys migrate --domain samples/rooms/domain.pddl --script samples/rooms/run --journal samples/rooms/journal samples/rooms/asker samples/rooms/charger samples/rooms/mover
plansys edit --domain FILE --script FILE
    Prepares a problem: does the edits of a script over a domain, takes them back at `undo` and makes them again at `redo`, answers
    what the domain and the problem are asked, and writes at `save` the lines that make the problem as it is then.
    plansys edit --domain samples/edit/domain.pddl --script samples/edit/script
plansys gen N
    Does a generated session in memory, in which N carts, from 1 to 100, are brought through a warehouse one after the other, and
    writes how many runs, starts of acts, requests, offers and entries it has.
    plansys gen 7
plansys --help
plansys --version
An option stands once, as `--name value` or `--name=value`, after the mode and before the members. A value isn't empty and doesn't begin
with `-`. A number has 1 to 9 decimal digits.
";

/// The program's name and version.
pub const VERSION: &str = "plansys 0.1.0\n";
