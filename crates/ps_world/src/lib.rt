//! The plain data of a planning session, and the definitions that every contract above cites.
#![tactic(auto)]

mod actions;
mod bound;
mod conditions;
mod domains;
mod edits;
mod expressions;
mod facts;
mod failures;
mod goals;
mod known;
mod lists;
mod names;
mod naming;
mod numbers;
mod packed;
mod schemas;

pub use actions::{ActionDef, Conditions, Effect, Effects, Guarded, NumOp, Spread};
pub use bound::Env;
pub use conditions::{BoxedCond, Cond, Conds, Rel};
pub use domains::{Decl, Domain, Param, Params};
pub use edits::{Edit, EditRefusal};
pub use expressions::{BoxedExpr, Expr, Op};
pub use facts::Fact;
pub use failures::Failure;
pub use goals::Goal;
pub use known::{Knowledge, MOST_INSTANCES};
pub use lists::{Duplicate, Seq};
pub use names::{Args, MOST_ARGUMENTS, Name};
pub use numbers::{MOST_THOUSANDTHS, Num};
pub use packed::PackedLifted;
pub use schemas::{Lifted, Term, Terms};
