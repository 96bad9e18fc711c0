//! A session whose mover drains the battery, so that its act is cancelled after two units of three, and another plan is looked for.
use super::calls::{Texts, session_of};
use super::rooms::CHARGING;
use ps_inputs::Session;
use std::alloc::Global;
use std::test::Fail;

/// The members, each of whose files has its name.
const MEMBERS: &[(&str, &str)] = &[
    (
        "asker",
        "performer asker\naction askcharge\nargs _ _ _\njob\nwork\nfinish ok\nend\n",
    ),
    (
        "charger",
        "performer charger\naction charge\nargs _ _\njob\nwork\nfinish ok\nend\n",
    ),
    (
        "weak",
        "performer weak\naction move\nargs _ _ _\njob\nset predicate (robot_at leia entrance)\nremove predicate (battery_full leia)\nfinish ok\njob\nfinish ok\nend\n",
    ),
];

const LINE: &str = "session --domain domain --script script asker charger weak";

/// What the session is read as.
pub fn drained(alloc: Global) -> Result<Session, Fail> {
    let mut members = Vec::new(alloc);
    for (name, text) in MEMBERS {
        members.push((
            String::from_str(alloc, name)?,
            String::from_str(alloc, text)?,
        ))?;
    }
    let script = String::from_str(alloc, CHARGING)?;
    session_of(alloc, &Texts { script, members }, LINE)
}
