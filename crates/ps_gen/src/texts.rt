//! The texts of the domain and of the members.
ghost use Rattle.std.specs.Prelude.{◌≡◌};
ghost use Rattle.ps_gen.specs.Texts.{domain_text, carrier_text, helper_text};

/// The text of the domain, in which a cart is carried from one spot to the next.
#[tactic(auto, unfolding(crate::specs::Texts::domain_text))]
pub fn domain_text() -> &'static [u8]
    ensures { result.now ≡ domain_text }
{
    b"\
(define (domain warehouse) (:types cart spot)
 (:predicates (at ?c - cart ?s - spot) (next ?a - spot ?b - spot))
 (:durative-action carry :parameters (?c - cart ?a - spot ?b - spot)
  :duration (= ?duration 2)
  :condition (and (at start (at ?c ?a)) (over all (next ?a ?b)))
  :effect (and (at start (not (at ?c ?a))) (at end (at ?c ?b)))))
"
}

/// The text of the first member, which carries from any spot.
#[tactic(auto, unfolding(crate::specs::Texts::carrier_text))]
pub fn carrier_text() -> &'static [u8]
    ensures { result.now ≡ carrier_text }
{
    b"\
performer carrier
action carry
args _ _ _
job
work
finish ok
end
"
}

/// The text of the second member, which carries from the store alone.
#[tactic(auto, unfolding(crate::specs::Texts::helper_text))]
pub fn helper_text() -> &'static [u8]
    ensures { result.now ≡ helper_text }
{
    b"\
performer helper
action carry
args _ store _
job
work
finish ok
end
"
}
