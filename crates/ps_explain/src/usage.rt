//! What is said of how explanations are asked for.

/// How the program is used.
pub const USAGE: &str = "\
explain WORDS
    Makes the call of plansys that has these words, in memory, and says what of it was refused or went wrong: where it stands, as
    FILE:LINE:COLUMN with the line and a caret, and why. Nothing is written but that. The words are those of:
    session --domain FILE --script FILE [--budget N] [--replans N] [MEMBER ..]
    check --domain FILE
    validate --domain FILE --script FILE --plan FILE
    plan --domain FILE --script FILE [--budget N]
    replay --domain FILE --script FILE --journal FILE [--budget N] [--replans N] [MEMBER ..]
    The runs of a session go in order, as with --ordered. The status is 0 where nothing was refused and nothing went wrong, 4 where a
    file can't be read, 5 where a write failed, 6 where memory ran out, and else 1.
    explain session --domain samples/rooms/domain.pddl --script samples/rooms/script samples/rooms/asker samples/rooms/charger samples/rooms/mover
";
