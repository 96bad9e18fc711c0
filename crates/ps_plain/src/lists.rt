//! The lists of what is known, with one item more or fewer.
ghost use Rattle.std.specs.Prelude.{◌≡◌, ◌∷◌, ◌++◌, filter, not, IfOk};
ghost use Rattle.std.specs.BTreeMap.{insert_entry};
ghost use Rattle.std.specs.BTreeSet.{insert_key};
ghost use Rattle.ps_world.specs.Names.{name_cmp, same_name};
ghost use Rattle.ps_world.specs.Facts.{fact_cmp};
ghost use Rattle.ps_world.specs.Knowledge.{is_among, same_fact};

use ps_world::{Fact, Name, Num};
use std::alloc::{AllocError, Global};
use std::cmp::Ordering;

/// These items, and after them one more and the rest.
fn followed_by<T: Copy>(mut all: Vec<T>, item: T, rest: &[T]) -> Result<Vec<T>, AllocError>
    ensures { IfOk result (λ v. v.items ≡ all.items ++ item ∷ rest.now) }
{
    all.push(item)?;
    all.extend_from_slice(rest)?;
    Ok(all)
}

/// The facts, which rise, with one more at its place, unless it is there.
pub fn with_fact(alloc: Global, facts: &[Fact], fact: Fact) -> Result<Vec<Fact>, AllocError>
    ensures { IfOk result (λ v. v.items ≡ insert_key fact_cmp facts.now fact) }
{
    let mut all = Vec::new(alloc);
    for (i, there) in facts.iter().enumerate() {
        match fact.cmp(there) {
            Ordering::Less => return followed_by(all, fact, &facts[i..]),
            Ordering::Equal => return followed_by(all, *there, &facts[i + 1..]),
            Ordering::Greater => all.push(*there)?,
        }
    }
    followed_by(all, fact, &[])
}

/// The instances with one more at its place, or with its type where it is there.
pub fn with_entry(
    alloc: Global,
    instances: &[(Name, Name)],
    name: Name,
    kind: Name,
) -> Result<Vec<(Name, Name)>, AllocError>
    ensures { IfOk result (λ v. v.items ≡ insert_entry name_cmp instances.now name kind) }
{
    let mut all = Vec::new(alloc);
    for (i, there) in instances.iter().enumerate() {
        match name.cmp(&there.0) {
            Ordering::Less => return followed_by(all, (name, kind), &instances[i..]),
            Ordering::Equal => return followed_by(all, (there.0, kind), &instances[i + 1..]),
            Ordering::Greater => all.push(*there)?,
        }
    }
    followed_by(all, (name, kind), &[])
}

/// The values, which rise, with one more at its place, or with this number where the function has a value there.
pub fn with_number(
    alloc: Global,
    values: &[(Fact, Num)],
    fact: Fact,
    number: Num,
) -> Result<Vec<(Fact, Num)>, AllocError>
    ensures { IfOk result (λ v. v.items ≡ insert_entry fact_cmp values.now fact number) }
{
    let mut all = Vec::new(alloc);
    for (i, there) in values.iter().enumerate() {
        match fact.cmp(&there.0) {
            Ordering::Less => return followed_by(all, (fact, number), &values[i..]),
            Ordering::Equal => return followed_by(all, (there.0, number), &values[i + 1..]),
            Ordering::Greater => all.push(*there)?,
        }
    }
    followed_by(all, (fact, number), &[])
}

/// The instances but this one.
pub fn instances_but(
    alloc: Global,
    instances: &[(Name, Name)],
    name: Name,
) -> Result<Vec<(Name, Name)>, AllocError>
    ensures { IfOk result (λ v. v.items ≡ filter (λ i. not (same_name name i.0)) instances.now) }
{
    let mut kept = Vec::new(alloc);
    for there in instances {
        if name != there.0 {
            kept.push(*there)?;
        }
    }
    Ok(kept)
}

/// The facts that don't name the instance.
pub fn facts_not_naming(alloc: Global, facts: &[Fact], name: Name) -> Result<Vec<Fact>, AllocError>
    ensures { IfOk result (λ v. v.items ≡ filter (λ f. not (is_among name f.args)) facts.now) }
{
    let mut kept = Vec::new(alloc);
    for there in facts {
        if !there.args.contains(name) {
            kept.push(*there)?;
        }
    }
    Ok(kept)
}

/// The values of functions that don't name the instance.
pub fn values_not_naming(
    alloc: Global,
    values: &[(Fact, Num)],
    name: Name,
) -> Result<Vec<(Fact, Num)>, AllocError>
    ensures { IfOk result (λ v. v.items ≡ filter (λ v. not (is_among name v.0.args)) values.now) }
{
    let mut kept = Vec::new(alloc);
    for there in values {
        if !there.0.args.contains(name) {
            kept.push(*there)?;
        }
    }
    Ok(kept)
}

/// The facts but this one.
pub fn facts_but(alloc: Global, facts: &[Fact], fact: Fact) -> Result<Vec<Fact>, AllocError>
    ensures { IfOk result (λ v. v.items ≡ filter (λ g. not (same_fact fact g)) facts.now) }
{
    let mut kept = Vec::new(alloc);
    for there in facts {
        if !fact.cmp(there).is_eq() {
            kept.push(*there)?;
        }
    }
    Ok(kept)
}

/// The values but that of this function term.
pub fn values_but(
    alloc: Global,
    values: &[(Fact, Num)],
    fact: Fact,
) -> Result<Vec<(Fact, Num)>, AllocError>
    ensures { IfOk result (λ v. v.items ≡ filter (λ v. not (same_fact fact v.0)) values.now) }
{
    let mut kept = Vec::new(alloc);
    for there in values {
        if !fact.cmp(&there.0).is_eq() {
            kept.push(*there)?;
        }
    }
    Ok(kept)
}
