//! The script of a call, read again.
use super::called::Called;
use ps_reasons::PlanText;
use ps_remarks::{Sources, part_of, sources_of, text_in};
use ps_script::{Kind, kind_of};
use ps_text::Files;
use std::alloc::{AllocError, Global};

/// What the script of a call is read from, with its plans.
#[derive(Drop)]
pub struct Script {
    pub sources: Sources,
    /// The plans of the lines that run one, each with the number of its line.
    pub plans: Vec<(u32, PlanText)>,
}

/// The plan in a file, if it can be read.
fn plan_of<F: Files>(
    alloc: Global,
    file: &str,
    files: &mut F,
) -> Result<Option<PlanText>, AllocError> {
    match text_in(alloc, file, files)? {
        Some(text) => Ok(Some(PlanText::of(alloc, file, text)?)),
        None => Ok(None),
    }
}

/// The plan that a line of a script runs, if it runs one.
fn plan_in<F: Files>(
    alloc: Global,
    line: &[u8],
    files: &mut F,
) -> Result<Option<PlanText>, AllocError> {
    match kind_of(alloc, line)? {
        Kind::RunPlan(file) => plan_of(alloc, file.as_str(), files),
        _ => Ok(None),
    }
}

/// Adds the plan that a line of a script runs, if it runs one, with the number of the line.
fn add_plan<F: Files>(
    alloc: Global,
    line: &[u8],
    number: u32,
    files: &mut F,
    plans: &mut Vec<(u32, PlanText)>,
) -> Result<(), AllocError> {
    if let Some(plan) = plan_in(alloc, line, files)? {
        plans.push((number, plan))?;
    }
    Ok(())
}

/// Adds the plans of the lines that run one.
fn add_plans<F: Files>(
    alloc: Global,
    sources: &Sources,
    files: &mut F,
    plans: &mut Vec<(u32, PlanText)>,
) -> Result<(), AllocError> {
    let mut number: u32 = 0;
    for origin in sources.lines.as_slice() {
        number = number.saturating_add(1);
        if let Some(source) = sources.source(*origin) {
            let line = part_of(source.text.as_slice(), origin.from, origin.to);
            add_plan(alloc, line, number, files, plans)?;
        }
    }
    Ok(())
}

/// The plans of the lines that run one.
fn plans_of<F: Files>(
    alloc: Global,
    sources: &Sources,
    files: &mut F,
) -> Result<Vec<(u32, PlanText)>, AllocError> {
    let mut plans = Vec::new(alloc);
    add_plans(alloc, sources, files, &mut plans)?;
    Ok(plans)
}

/// Reads the script of a call again, into a box, so that whoever owns it owns one part.
pub fn script_of<F: Files>(
    alloc: Global,
    called: &Called<'_>,
    files: &mut F,
) -> Result<Box<Script>, AllocError> {
    let sources = sources_of(alloc, called.script.unwrap_or(""), files)?;
    let plans = plans_of(alloc, &sources, files)?;
    Ok(Box::new(alloc, Script { sources, plans })?)
}
