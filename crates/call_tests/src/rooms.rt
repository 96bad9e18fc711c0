//! The texts of inputs: robots that move through rooms, and are charged where they can be.

pub const ROOMS: &str = "(define (domain rooms) (:types robot room)
(:predicates (robot_at ?r - robot ?ro - room) (connected ?a ?b - room) (battery_full ?r - robot)
 (battery_low ?r - robot) (charging_point_at ?ro - room))
(:durative-action move :parameters (?r - robot ?a ?b - room) :duration (= ?duration 5)
 :condition (and (at start (and (connected ?a ?b) (robot_at ?r ?a))) (over all (battery_full ?r)))
 :effect (and (at start (not (robot_at ?r ?a))) (at end (robot_at ?r ?b))))
(:durative-action askcharge :parameters (?r - robot ?a ?b - room) :duration (= ?duration 5)
 :condition (at start (and (robot_at ?r ?a) (charging_point_at ?b)))
 :effect (and (at start (not (robot_at ?r ?a))) (at end (robot_at ?r ?b))))
(:durative-action charge :parameters (?r - robot ?ro - room) :duration (= ?duration 5)
 :condition (at start (and (robot_at ?r ?ro) (charging_point_at ?ro)))
 :effect (at end (and (not (battery_low ?r)) (battery_full ?r)))))";

/// Two robots, each of which can be moved at once.
pub const BOTH: &str = "set instance leia robot
set instance r2 robot
set instance entrance room
set instance kitchen room
set predicate (connected entrance kitchen)
set predicate (robot_at leia entrance)
set predicate (robot_at r2 entrance)
set predicate (battery_full leia)
set predicate (battery_full r2)
set goal (and (robot_at leia kitchen) (robot_at r2 kitchen))
run
";

/// One robot, and a way back from the charging point.
pub const CHARGING: &str = "set instance leia robot
set instance entrance room
set instance kitchen room
set instance chargingroom room
set predicate (robot_at leia entrance)
set predicate (connected entrance kitchen)
set predicate (connected chargingroom kitchen)
set predicate (charging_point_at chargingroom)
set predicate (battery_full leia)
set goal (and (robot_at leia kitchen))
run
";
