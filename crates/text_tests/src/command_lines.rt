//! Command lines, and what they ask for: the grammar of the words agrees with the one that `clap` parses.
use super::tables::assert_told;
use ps_words::{Asked, ReplaySettings, Settings, read_words};
use std::alloc::{AllocError, Global};
use std::test::Fail;

/// Command lines of sessions, and the domain, the script, the workers, the budget, how often a run may be planned anew, whether turns
/// are ordered, whether reports are told, and the members.
const SESSIONS: &str = "\
session --domain d --script s -> session d s 2 20000 3 false
session --script=s --domain=d -> session d s 2 20000 3 false
session --ordered --budget 7 --script s --workers=3 --replans 0 --domain d -> session d s 3 7 0 true
session --domain d --ordered --script s -> session d s 2 20000 3 true
session --domain=a=b --script c=d -> session a=b c=d 2 20000 3 false
session --domain d=--x --script s- -> session d=--x s- 2 20000 3 false
session --domain session --script check -> session session check 2 20000 3 false
session --domain d --script s --workers 0 -> none
session --domain d --script s --workers 1 -> session d s 1 20000 3 false
session --domain d --script s --workers=16 -> session d s 16 20000 3 false
session --domain d --script s --workers 17 -> none
session --domain d --script s --workers two -> none
session --domain d --script s --budget 0 -> none
session --domain d --script s --budget 1 -> session d s 2 1 3 false
session --domain d --script s --budget 200000 -> session d s 2 200000 3 false
session --domain d --script s --budget 200001 -> none
session --domain d --script s --budget 007 -> session d s 2 7 3 false
session --domain d --script s --budget 000000007 -> session d s 2 7 3 false
session --domain d --script s --budget 0000000007 -> none
session --domain d --script s --budget 9999999999 -> none
session --domain d --script s --budget +5 -> none
session --domain d --script s --budget 5x -> none
session --domain d --script s --budget  -> none
session --domain d --script s --budget= -> none
session --domain d --script s --budget -> none
session --domain d --script s --replans 0 -> session d s 2 20000 0 false
session --domain d --script s --replans=000 -> session d s 2 20000 0 false
session --domain d --script s --replans 8 -> session d s 2 20000 8 false
session --domain d --script s --replans 9 -> none
session --domain d --script s --ordered=x -> none
session --domain d --script s --ordered=true -> none
session --domain d --script s --ordered --ordered -> none
session --domain d --script s --ordered true -> session d s 2 20000 3 true true
session --domain d --script s --domain d -> none
session --domain d --script s --domain=d -> none
session --domain=d --script s --domain=e -> none
session --domain d --script s --workers 2 --workers=2 -> none
session --domain d -> none
session --script s -> none
session -> none
session --domain d --script s --plan p -> none
session --dom d --script s -> none
session --domain d --script s --Ordered -> none
session -domain d --script s -> none
session --domain d --script s -d -> none
session --domain d --script s --help -> none
session --domain d --script s --version -> none
session --domain d --script s -h -> none
session x --domain d --script s -> none
session --domain d x --script s -> none
session --domain d --script s x -> session d s 2 20000 3 false x
session --domain d --script s --ordered x -> session d s 2 20000 3 true x
session --domain d --script=s m=1 m m -> session d s 2 20000 3 false m=1 m m
session --ordered --domain d --script s --budget 7 session --script -> none
session --domain d --script s x --ordered -> none
session --domain d --script s --reports -> session d s 2 20000 3 false reports
session --reports --domain d --ordered --script s x -> session d s 2 20000 3 true reports x
session --domain d --script s --reports x --reports -> none
session --domain d --script s --reports --reports -> none
session --domain d --script s --reports=true -> none
check --domain d --reports -> none
session --domain d --script s x --ordered y -> none
session --domain d --script s x -y -> none
session --domain d --script s --ordered=x y -> none
session --domain d --script s x  y -> none
session --domain d --script s x - -> none
session --domain d --script s x -- y -> none
session x y -> none";

/// Other command lines, and what they ask for.
const OTHERS: &str = "\
check --domain d -> check d
check --domain=d -> check d
check --domain a=b -> check a=b
check --domain=a=b -> check a=b
check -> none
check d -> none
check --domain -> none
check --domain= -> none
check --domain  -> none
check --domain - -> none
check --domain -- -> none
check --domain -x -> none
check --domain=-x -> none
check --domain=- -> none
check --domain --script -> none
check --domain d --script s -> none
check --domain d --domain d -> none
check --domain d --ordered -> none
check --domain d - -> none
check --domain d -- -> none
check -- --domain d -> none
check --domain d  -> none
check --=d -> none
check --domain d --=d -> none
validate --domain d --script s --plan p -> validate d s p
validate --plan=p --script s --domain=d -> validate d s p
validate --domain d --script s -> none
validate --domain d --plan p -> none
validate --script s --plan p -> none
validate --domain d --script s --plan p --workers 2 -> none
validate --domain d --script s --plan p q -> none
edit --domain d --script s -> edit d s
edit --script=s --domain=d -> edit d s
edit --domain d -> none
edit --script s -> none
edit --domain d --script s m -> none
edit --domain d --script s --budget 7 -> none
edit --domain d --script s --ordered -> none
edit --domain d --script s --script t -> none
Check --domain d -> none
checks --domain d -> none
--domain d check -> none
--help -> none
help -> none
 -> none";

/// Command lines of replays and migrations, and the domain, the script, the journal, the budget, how often a run may be planned anew, and the members.
const REPLAYS: &str = "\
replay --domain d --script s --journal j -> replay d s j 20000 3
replay --journal=j --script=s --domain=d -> replay d s j 20000 3
replay --replans 0 --journal j --budget=7 --domain d --script s a b -> replay d s j 7 0 a b
replay --domain d --script s --journal j --replans 8 -> replay d s j 20000 8
replay --domain d --script s --journal j --replans 9 -> none
replay --domain d --script s --journal j --replans -1 -> none
replay --domain d --script s --journal j --budget 0 -> none
replay --domain d --script s --journal j --budget 200000 -> replay d s j 200000 3
replay --domain d --script s --journal j --budget 200001 -> none
replay --domain d --script s -> none
replay --domain d --journal j -> none
replay --script s --journal j -> none
replay --domain d --script s --plan p -> none
replay --domain d --script s --journal j --plan p -> none
replay --domain d --script s --journal j --journal k -> none
replay --domain d --script s --journal j --workers 2 -> none
replay --domain d --script s --journal j --ordered -> none
replay --domain d --script s --journal j a --replans 0 -> none
replay --domain d --script s --journal j -- a -> none
replay j --domain d --script s -> none
migrate --domain d --script s --journal j -> migrate d s j 20000 3
migrate --replans 0 --journal j --budget=7 --domain d --script s a b -> migrate d s j 7 0 a b
migrate --domain d --script s -> none
migrate --domain d --script s --journal j --workers 2 -> none
migrate --domain d --script s --journal j --budget 0 -> none
Replay --domain d --script s --journal j -> none
session --domain d --script s --journal j -> none";

/// Command lines of plans that are searched for.
const PLANNINGS: &str = "\
plan --domain d --script s -> plan d s 20000
plan --budget=7 --script=s --domain=d -> plan d s 7
plan --domain d --script s --budget 200000 -> plan d s 200000
plan --domain d --script s --budget 0 -> none
plan --domain d --script s --budget 200001 -> none
plan --domain d --script s --budget 7 --budget 7 -> none
plan --domain d --script s --replans 1 -> none
plan --domain d --script s --plan p -> none
plan --domain d --script s m -> none
plan --domain d -> none
plan --script s -> none
plan -> none
Plan --domain d --script s -> none";

/// Command lines of generated sessions, and the number of carts.
const GENERATIONS: &str = "\
gen 1 -> gen 1
gen 7 -> gen 7
gen 007 -> gen 7
gen 100 -> gen 100
gen 000000100 -> gen 100
gen -> none
gen  -> none
gen 0 -> none
gen 101 -> none
gen 0000000001 -> none
gen 4294967297 -> none
gen +1 -> none
gen -1 -> none
gen 1x -> none
gen one -> none
gen 1 2 -> none
gen 1 1 -> none
gen --x 1 -> none
gen --carts 1 -> none
gen --carts=1 -> none
gen --ordered 1 -> none
gen 1 --ordered -> none
gen 1 --domain d -> none
gen - -> none
gen -- 1 -> none
gen --help -> none
gen help -> none
Gen 1 -> none
1 gen -> none";

/// The words of a line, which one space parts.
fn words(alloc: Global, line: &str) -> Result<Vec<String>, AllocError> {
    let mut all = Vec::new(alloc);
    for word in line.split(' ') {
        all.push(String::from_str(alloc, word)?)?;
    }
    Ok(all)
}

fn told_of_asked(alloc: Global, asked: Option<Asked<'_>>) -> Result<String, AllocError> {
    match asked {
        Some(Asked::Session(settings)) => told_of_session(alloc, settings),
        Some(Asked::Check { domain }) => format!(in alloc; "check {domain}"),
        Some(
            Asked::Validate {
                domain,
                script,
                plan,
            },
        ) => { format!(in alloc; "validate {domain} {script} {plan}") }
        Some(
            Asked::Plan {
                domain,
                script,
                budget,
            },
        ) => { format!(in alloc; "plan {domain} {script} {budget}") }
        Some(Asked::Replay(settings)) => told_of_replay(alloc, settings),
        Some(Asked::Edit { domain, script }) => format!(in alloc; "edit {domain} {script}"),
        Some(Asked::Generate { carts }) => format!(in alloc; "gen {carts}"),
        None => String::from_str(alloc, "none"),
    }
}

fn told_of_session(alloc: Global, settings: Settings<'_>) -> Result<String, AllocError> {
    let Settings {
        domain,
        script,
        members,
        workers,
        budget,
        replans,
        ordered,
        reports,
    } = settings;
    let mut told = format!(in alloc;
        "session {domain} {script} {workers} {budget} {replans} {ordered}"
    )?;
    if reports {
        told.push_str(" reports")?;
    }
    for member in &members {
        write!(told, " {member}")?;
    }
    Ok(told)
}

fn told_of_replay(alloc: Global, settings: ReplaySettings<'_>) -> Result<String, AllocError> {
    let ReplaySettings {
        domain,
        script,
        journal,
        members,
        budget,
        replans,
        migrates,
    } = settings;
    let mode = if migrates { "migrate" } else { "replay" };
    let mut told = format!(in alloc; "{mode} {domain} {script} {journal} {budget} {replans}")?;
    for member in &members {
        write!(told, " {member}")?;
    }
    Ok(told)
}

fn told(alloc: Global, line: &str) -> Result<String, AllocError> {
    let words = words(alloc, line)?;
    told_of_asked(alloc, read_words(alloc, &words)?)
}

#[test]
fn command_lines_are_read(rt: HostRuntime) -> Result<(), Fail> {
    assert_told(&rt, rt.alloc(), SESSIONS, told)?;
    assert_told(&rt, rt.alloc(), REPLAYS, told)?;
    assert_told(&rt, rt.alloc(), PLANNINGS, told)?;
    assert_told(&rt, rt.alloc(), GENERATIONS, told)?;
    assert_told(&rt, rt.alloc(), OTHERS, told)
}
