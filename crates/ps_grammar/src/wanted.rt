//! The symbols that are still wanted, and what one mark more makes of them.
ghost use Rattle.std.specs.Prelude.{◌≡◌, ℕ, take, ◌≤◌, ◌<◌, ◌+◌, ◌^◌, ◌↔◌, [], ◌∷◌, ◌++◌, drop, length, true, false, Ok, None, Some, IfOk, IfSome, IsTrue, MatchOption, slice_get};
ghost use Rattle.ps_grammar.specs.declared.symbols.Symbol.TheVariants.{The, InText};
ghost use Rattle.ps_grammar.specs.declared.marks.Mark.TheVariants.{Close};
ghost use Rattle.ps_grammar.specs.declared.symbols.TextPart.TheVariants.{Whole};
ghost use Rattle.ps_grammar.specs.Symbols.{level, symbols};
ghost use Rattle.ps_grammar.specs.Shape.{next_wanted, run, IsTooDeepFrom, deepest};
ghost use Rattle.ps_grammar.specs.Steps.{IsOver, Passes, Stops, Fails, form_of};
ghost use Rattle.ps_grammar.specs.Forms.{told_at};
ghost use Rattle.ps_grammar.specs.Turns.{turned};

use super::faults::{Form, ShapeFault, opened_at, opens, unsupported};
use super::marks::Mark;
use super::rules::{MOST_NAMES, step};
use super::symbols::{
    ConditionPart, EffectPart, GoalPart, Reach, Symbol, TextPart, Then, ValuePart,
};
use super::turns::{Turn, turn_of};
use std::alloc::{AllocError, Global};
use std::marker::Model;

/// How many levels of parentheses may stand open.
pub const DEEPEST: usize = 64;

/// How many symbols are mostly wanted at once where a line is read.
const FEW: usize = 8;

/// The symbols that are wanted, in order.
#[derive(Drop)]
pub struct Wanted {
    /// The first one wanted stands last.
    items: Vec<Symbol>,
    /// For so many marks more none can open a level too many, as each opens one at most. So the levels needn't be counted at each mark.
    left: usize,
}

impl Model for Wanted {
    ghost use Rattle.std.specs.Prelude.{◌≤◌, ◌-◌, List, reverse};
    ghost use Rattle.ps_grammar.specs.Symbols.{level};
    ghost use Rattle.ps_grammar.specs.Shape.{deepest};
    ghost use Rattle.ps_grammar.specs.declared.symbols.Symbol.{Symbol};

    ghost Value = { List Symbol };

    ghost view = { λ w. reverse w.items.items };

    ghost invariant = { λ w. w.left ≤ deepest - level (reverse w.items.items) };
}

impl Wanted {
    /// A whole text.
    pub fn whole(alloc: Global) -> Result<Self, AllocError>
        ensures { IfOk result (λ w. w ≡ InText Whole ∷ []) }
    {
        let mut wanted = Wanted {
            items: Vec::new(alloc),
            left: 0,
        };
        wanted.push(Symbol::InText(TextPart::Whole))?;
        Ok(wanted)
    }

    /// These symbols.
    pub fn these(alloc: Global, symbols: &[Symbol]) -> Result<Self, AllocError>
        requires { length symbols.now ≤ 8 }
        ensures value { IfOk result (λ w. w ≡ symbols.now) }
        ensures low { IfOk result (λ w. level w ≤ 16) }
    {
        let mut wanted = Wanted {
            items: Vec::with_capacity(alloc, FEW)?,
            left: 0,
        };
        for at in (0..symbols.len()).rev() {
            wanted.push(symbols[at])?;
        }
        Ok(wanted)
    }

    /// Whether nothing is wanted.
    pub fn is_empty(&self) -> bool
        ensures { IsTrue result ↔ (self.now ≡ []) }
    {
        self.items.is_empty()
    }

    /// The first symbol.
    pub fn first(&self) -> Option<Symbol>
        ensures { result ≡ slice_get self.now 0 }
    {
        self.items.last().copied()
    }

    /// Whether the mark opens a level too many.
    #[inline(always)]
    pub fn is_over(&mut self, mark: Mark) -> bool
        requires { level self.old < 2 ^ 64 }
        ensures over { IsTrue result ↔ IsOver self.old mark }
        ensures kept { self.new ≡ self.old }
    {
        self.left == 0 && opens(self.first(), mark) && self.is_deepest()
    }

    /// Whether no level more may be opened, by counting them.
    fn is_deepest(&mut self) -> bool
        requires { level self.old < 2 ^ 64 }
        ensures deepest { IsTrue result ↔ (deepest ≤ level self.old) }
        ensures kept { self.new ≡ self.old }
    {
        let levels = self.levels();
        self.left = DEEPEST.saturating_sub(levels);
        levels >= DEEPEST
    }

    /// How many levels of parentheses stand open.
    #[tactic(auto, using(crate::proofs::Levels::level_last))]
    fn levels(&self) -> usize
        requires { level self.now < 2 ^ 64 }
        ensures { result ≡ level self.now }
    {
        let mut levels = 0;
        for at in (0..self.items.len()).rev() {
            levels += self.items[at].weight();
        }
        levels
    }

    /// Puts the symbol before the others.
    pub fn push(&mut self, symbol: Symbol) -> Result<(), AllocError>
        ensures { IfOk result (λ _. self.new ≡ symbol ∷ self.old) }
    {
        self.left = 0;
        self.items.push(symbol)?;
        Ok(())
    }

    /// Puts the symbol in place of the first one.
    fn replace_by(&mut self, symbol: Symbol)
        requires { 0 < length self.old }
        ensures { self.new ≡ symbol ∷ drop 1 self.old }
    {
        self.left = 0;
        let first = self.items.len() - 1;
        self.items[first] = symbol;
    }

    /// Takes the first symbol away.
    fn pop(&mut self)
        ensures { self.new ≡ drop 1 self.old }
    {
        self.left = 0;
        let _ = self.items.pop();
    }

    /// Puts what a mark leads to in place of the first symbol.
    pub fn replace(&mut self, next: Then) -> Result<(), AllocError>
        requires some { 0 < length self.old }
        requires few { level (symbols next ++ drop 1 self.old) ≤ level self.old + 1 }
        ensures { IfOk result (λ _. self.new ≡ symbols next ++ drop 1 self.old) }
    {
        let left = self.left.saturating_sub(1);
        match next {
            Then::Nothing => self.pop(),
            Then::One(a) => self.replace_by(a),
            Then::Two(a, b) => {
                self.replace_by(b);
                self.push(a)?;
            }
            Then::Three(a, b, c) => {
                self.replace_by(c);
                self.push(b)?;
                self.push(a)?;
            }
        }
        self.left = left;
        Ok(())
    }

    /// The first symbol has all that it stands for.
    fn end_first(&mut self)
        ensures { self.new ≡ drop 1 self.old }
    {
        let left = self.left;
        self.pop();
        self.left = left;
    }

    /// The first symbol becomes this one.
    fn set_first(&mut self, symbol: Symbol)
        requires some { 0 < length self.old }
        requires few { level (symbol ∷ drop 1 self.old) ≤ level self.old + 1 }
        ensures { self.new ≡ symbol ∷ drop 1 self.old }
    {
        let left = self.left.saturating_sub(1);
        self.replace_by(symbol);
        self.left = left;
    }

    /// The first symbol becomes these.
    fn set_two(&mut self, first: Symbol, second: Symbol) -> Result<(), AllocError>
        requires some { 0 < length self.old }
        requires few { level (first ∷ second ∷ drop 1 self.old) ≤ level self.old + 1 }
        ensures { IfOk result (λ _. self.new ≡ first ∷ second ∷ drop 1 self.old) }
    {
        let left = self.left.saturating_sub(1);
        self.replace_by(second);
        self.push(first)?;
        self.left = left;
        Ok(())
    }

    /// The first symbol becomes a word for the time, what stands then, and the parenthesis that ends both.
    fn set_timed(&mut self, time: Symbol, what: Symbol) -> Result<(), AllocError>
        requires some { 0 < length self.old }
        requires few { level (time ∷ what ∷ The Close ∷ drop 1 self.old) ≤ level self.old + 1 }
        ensures { IfOk result (λ _. self.new ≡ time ∷ what ∷ The Close ∷ drop 1 self.old) }
    {
        let left = self.left.saturating_sub(1);
        self.replace_by(Symbol::The(Mark::Close));
        self.push(what)?;
        self.push(time)?;
        self.left = left;
        Ok(())
    }

    /// Takes this turn of the first symbol.
    fn turn(&mut self, first: Symbol, turn: Turn) -> Result<(), AllocError>
        requires some { 0 < length self.old }
        requires few { IfSome (turned turn first) (λ new. level (new ++ drop 1 self.old) ≤ level self.old + 1) }
        ensures { IfOk result (λ _. IfSome (turned turn first) (λ new. self.new ≡ new ++ drop 1 self.old)) }
    {
        match turn {
            Turn::Ends => self.end_first(),
            Turn::GoesOn => self.set_first(first),
            Turn::Terms => self.set_first(Symbol::InValue(ValuePart::Terms)),
            Turn::Names(most) => self.set_first(Symbol::InGoal(GoalPart::Names(most))),
            Turn::ConditionHead => self.set_first(Symbol::InCondition(ConditionPart::Head)),
            Turn::EffectHead => self.set_first(Symbol::InEffect(EffectPart::Head(Reach::Spread))),
            Turn::TimedCondition => {
                self.set_two(Symbol::InCondition(ConditionPart::TimedHead), first)?;
            }
            Turn::TimedEffect => {
                self.set_two(Symbol::InEffect(EffectPart::TimedHead), first)?;
            }
            Turn::Atom => {
                let names = Symbol::InGoal(GoalPart::Names(MOST_NAMES));
                self.set_two(Symbol::AnyName, names)?;
            }
            Turn::ConditionAt => {
                let condition = Symbol::InCondition(ConditionPart::Condition);
                self.set_timed(Symbol::InEffect(EffectPart::StartOrEnd), condition)?;
            }
            Turn::ConditionOver => {
                let condition = Symbol::InCondition(ConditionPart::Condition);
                self.set_timed(Symbol::The(Mark::All), condition)?;
            }
            Turn::EffectAt => {
                let effect = Symbol::InEffect(EffectPart::Effect(Reach::Spread));
                self.set_timed(Symbol::InEffect(EffectPart::StartOrEnd), effect)?;
            }
            Turn::ByRule => (),
        }
        Ok(())
    }

    /// What the mark leads to, if it fits.
    pub fn fitting(&self, mark: Mark) -> Option<Then>
        ensures fits { MatchOption result (next_wanted self.now mark ≡ None)
            (λ next. next_wanted self.now mark ≡ Some (symbols next ++ drop 1 self.now)) }
        ensures few { IfSome result
            (λ next. level (symbols next ++ drop 1 self.now) ≤ level self.now + 1) }
    {
        step(self.first()?, mark)
    }

    /// What is wrong with a mark that doesn't fit and opens no level too many; `after` is the mark after it.
    pub fn misfit(&self, at: usize, mark: Mark, after: Option<Mark>) -> ShapeFault
        requires place { at + 1 < 2 ^ 64 }
        requires unfit { next_wanted self.now mark ≡ None }
        requires flat { IsOver self.now mark → ⊥ }
        ensures { Fails self.now mark after at result }
    {
        match unsupported(self.first(), mark, after) {
            Some(Form::Either) => ShapeFault::Unsupported {
                at: at + 1,
                what: Form::Either,
            },
            Some(what) => ShapeFault::Unsupported { at, what },
            None => ShapeFault::Unexpected { at },
        }
    }

    /// What is wrong with a mark that doesn't fit or opens a level too many; `after` is the mark after it.
    pub fn fault(&mut self, at: usize, mark: Mark, after: Option<Mark>) -> ShapeFault
        requires room { level self.old < 2 ^ 64 }
        requires place { at + 1 < 2 ^ 64 }
        requires stops { Stops self.old mark }
        ensures { Fails self.old mark after at result }
    {
        if self.is_over(mark) {
            ShapeFault::Depth {
                at: opened_at(self.first(), at),
            }
        } else {
            self.misfit(at, mark, after)
        }
    }

    /// Takes the mark if it fits and opens no level too many, and says whether it did.
    fn takes(&mut self, mark: Mark) -> Result<bool, AllocError>
        requires { level self.old + 6 < 2 ^ 64 }
        ensures passes { result ≡ Ok true → Passes self.old mark self.new }
        ensures rises { result ≡ Ok true → level self.new ≤ level self.old + 1 }
        ensures stops { result ≡ Ok false → Stops self.old mark }
        ensures kept { result ≡ Ok false → self.new ≡ self.old }
    {
        if self.is_over(mark) {
            return Ok(false);
        }
        let Some(first) = self.first() else {
            return Ok(false);
        };
        match turn_of(first, mark) {
            Turn::ByRule => self.takes_by_rule(mark),
            turn => {
                self.turn(first, turn)?;
                Ok(true)
            }
        }
    }

    /// Takes the mark if it fits, by the first symbol's rule, and says whether it did.
    fn takes_by_rule(&mut self, mark: Mark) -> Result<bool, AllocError>
        ensures passes { result ≡ Ok true → next_wanted self.old mark ≡ Some self.new }
        ensures rises { result ≡ Ok true → level self.new ≤ level self.old + 1 }
        ensures stops { result ≡ Ok false → next_wanted self.old mark ≡ None }
        ensures kept { result ≡ Ok false → self.new ≡ self.old }
    {
        let Some(next) = self.fitting(mark) else {
            return Ok(false);
        };
        self.replace(next)?;
        Ok(true)
    }

    /// Takes marks as long as they fit and open no level too many, and says how many it took.
    pub fn taken(&mut self, marks: &[Mark]) -> Result<usize, AllocError>
        requires { level self.old ≤ 16 }
        ensures within { IfOk result (λ at. at ≤ length marks.now) }
        ensures fits { IfOk result (λ at. run self.old (take at marks.now) ≡ Some self.new) }
        ensures flat { IfOk result
            (λ at. (k : ℕ) → k < at → IsTooDeepFrom self.old marks.now k → ⊥) }
        ensures low { IfOk result (λ at. level self.new ≤ at + 16) }
        ensures stops { IfOk result
            (λ at. IfSome (slice_get marks.now at) (λ m. Stops self.new m)) }
    {
        for (at, mark) in marks.iter().enumerate() {
            if !self.takes(*mark)? {
                return Ok(at);
            }
        }
        Ok(marks.len())
    }
}
