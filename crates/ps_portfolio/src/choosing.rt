//! The choice among answers.
ghost use Rattle.std.specs.Prelude.{◌≡◌, not};
ghost use Rattle.std.specs.List.{list_any};
ghost use Rattle.ps_portfolio.specs.Choosing.{best_of, is_best, is_better};

use ps_greedy::Found;

/// Whether the first answer is better than the second.
fn is_better(f: &Found, g: &Found) -> bool
    ensures { result ≡ is_better f.now g.now }
{
    match (f, g) {
        (Found::Plan(acts), Found::Plan(others)) => acts.len() < others.len(),
        (Found::Plan(_), _) => true,
        (Found::NoPlan, Found::Spent | Found::TooMany) => true,
        _ => false,
    }
}

/// Whether none of these is better.
fn is_best(answers: &[Found], f: &Found) -> bool
    ensures { result ≡ is_best answers.now f.now }
{
    for g in answers {
        if is_better(g, f) {
            return false;
        }
    }
    true
}

/// The place of the first answer than which none is better. There is one where there is an answer.
pub fn best_of(answers: &[Found]) -> usize
    ensures { result ≡ best_of answers.now }
{
    for place in 0..answers.len() {
        if is_best(answers, &answers[place]) {
            return place;
        }
    }
    answers.len()
}
