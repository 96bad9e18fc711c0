//! The texts of inputs: robots that move through rooms.
use super::rooms;

/// The words that name what an input is read from, its domain, its script, and its members by their names.
#[derive(Clone, Copy)]
pub struct Texts {
    pub words: &'static str,
    pub domain: &'static str,
    pub script: &'static str,
    pub members: &'static [(&'static str, &'static str)],
}

const ROOMS: &str = "(define (domain rooms) (:types robot room)
(:predicates (robot_at ?r - robot ?ro - room) (connected ?a ?b - room) (battery_full ?r - robot) (battery_low ?r - robot)
 (charging_point_at ?ro - room))
(:durative-action move :parameters (?r - robot ?a ?b - room) :duration (= ?duration 5)
 :condition (and (at start (and (connected ?a ?b) (robot_at ?r ?a))) (over all (battery_full ?r)))
 :effect (and (at start (not (robot_at ?r ?a))) (at end (robot_at ?r ?b))))
(:durative-action charge :parameters (?r - robot ?ro - room) :duration (= ?duration 5)
 :condition (and (at start (robot_at ?r ?ro)) (at start (charging_point_at ?ro)))
 :effect (and (at end (not (battery_low ?r))) (at end (battery_full ?r)))))";

const BOTH: &str = "set instance leia robot
set instance r2 robot
set instance entrance room
set instance kitchen room
set predicate (connected entrance kitchen)
set predicate (robot_at leia entrance)
set predicate (robot_at r2 entrance)
set predicate (battery_full leia)
set predicate (battery_full r2)
set goal (and (robot_at leia kitchen) (robot_at r2 kitchen))
run
quit
get plan";

const WORKER: (&str, &str) = (
    "worker",
    "performer worker\naction move\nargs _ _ _\njob\nwork\nwork\nfinish ok\nend",
);

/// Two robots and one mover.
pub const KITCHEN: Texts = Texts {
    words: "replay --domain d --script s --journal j worker",
    domain: ROOMS,
    script: BOTH,
    members: &[WORKER],
};

const HELPER: &str = "performer helper\naction move\nargs _ _ kitchen\njob
feedback 50 halfway\nset predicate (connected kitchen entrance)\nfinish ok\nend";

const DRAIN: &str = "observer drain\nset predicate (battery_full r3)
when (not (robot_at r2 entrance))\nset predicate (battery_full r2)\nremove predicate (battery_full leia)\nend";

/// Two robots, two movers, and an observer that empties a battery on the way.
pub const DRAINED: Texts = Texts {
    words: "replay --domain d --script s --journal j --replans 0 drain helper worker",
    domain: ROOMS,
    script: BOTH,
    members: &[("drain", DRAIN), ("helper", HELPER), WORKER],
};

const THRICE: &str = "set instance leia robot
set instance entrance room
set instance kitchen room
set predicate (connected entrance kitchen)
set predicate (connected kitchen entrance)
set predicate (robot_at leia entrance)
set predicate (battery_full leia)
run action (move leia entrance kitchen)
set predicate (robot_at leia entrance)
run action (move leia entrance kitchen)
set goal (and (robot_at leia entrance))
run
get tree";

const CLUMSY: &str =
    "performer clumsy\naction move\nargs _ _ _\njob\nwork\nfinish fail\njob\nfinish ok\nend";

/// Three runs of a mover whose first job fails.
pub const FAILING: Texts = Texts {
    words: "replay --domain d --script s --journal j clumsy",
    domain: ROOMS,
    script: THRICE,
    members: &[("clumsy", CLUMSY)],
};

const CARTS: &str = "set instance c1 robot
set instance c2 robot
set instance c3 robot
set instance store room
set instance aisle room
set instance dock room
set predicate (connected store aisle)
set predicate (connected aisle dock)
set predicate (robot_at c1 store)
set predicate (robot_at c2 store)
set predicate (robot_at c3 aisle)
set predicate (battery_full c1)
set predicate (battery_full c2)
set predicate (battery_full c3)
set goal (and (robot_at c1 dock) (robot_at c2 dock) (robot_at c3 dock))
run
remove predicate (robot_at c1 store)";

const CARRIER: &str = "performer carrier\naction move\nargs _ _ _\njob\nwork\nfinish ok\nend";

const KEEPER: &str = "performer keeper\naction move\nargs _ store _\njob\nwork\nfinish ok\nend";

const PORTER: &str =
    "observer porter\nwhen (robot_at c1 dock)\nremove predicate (battery_full c2)\nend";

/// Three carts, two that move them, and an observer that may stop the last of them.
pub const WAREHOUSE: Texts = Texts {
    words: "replay --domain d --script s --journal j porter carrier keeper",
    domain: ROOMS,
    script: CARTS,
    members: &[("porter", PORTER), ("carrier", CARRIER), ("keeper", KEEPER)],
};

const CALLED: &str = "set instance leia robot
set instance entrance room
set instance kitchen room
set instance chargingroom room
set predicate (robot_at leia entrance)
set predicate (connected entrance kitchen)
set predicate (connected chargingroom kitchen)
set predicate (charging_point_at chargingroom)
set predicate (battery_full leia)
set goal (and (robot_at leia kitchen))
run";

const CHARGER: &str = "performer charger\naction charge\nargs _ _\njob\nwork\nfinish ok\nend";

const LATE: &str = "observer late\nset predicate (battery_low leia)\nend";

/// A robot that nobody moves, and an observer that edits once.
pub const UNMOVED: Texts = Texts {
    words: "replay --domain d --script s --journal j --replans 1 late charger",
    domain: ROOMS,
    script: CALLED,
    members: &[("late", LATE), ("charger", CHARGER)],
};

const ROUND: &str = "set instance leia robot
set instance entrance room
set instance kitchen room
set instance bedroom room
set instance chargingroom room
set predicate (robot_at leia entrance)
set predicate (battery_low leia)
set predicate (charging_point_at chargingroom)
set predicate (connected entrance kitchen)
set predicate (connected chargingroom kitchen)
set predicate (connected kitchen bedroom)
set goal (and (robot_at leia bedroom))
get plan
run";

const ASKER: &str = "performer asker\naction askcharge\nargs _ _ _\njob\nwork\nfinish ok\nend";

const MOVER: &str =
    "performer mover\naction move\nargs _ _ _\njob\nfeedback 50 halfway\nfinish ok\nend";

/// A robot that charges on its way.
pub const CHARGING: Texts = Texts {
    words: "replay --domain d --script s --journal j asker charger mover",
    domain: rooms::ROOMS,
    script: ROUND,
    members: &[("asker", ASKER), ("charger", CHARGER), ("mover", MOVER)],
};
