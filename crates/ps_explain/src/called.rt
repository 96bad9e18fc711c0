//! The files that a call names.
use ps_words::Asked;
use std::alloc::Global;

/// The files that a call names.
#[derive(Drop)]
pub struct Called<'a> {
    pub domain: &'a str,
    pub script: Option<&'a str>,
    /// The plan or the journal.
    pub other: Option<&'a str>,
    pub members: Vec<&'a str>,
}

/// The files of a call, or none where it isn't explained.
pub fn called_by<'a>(alloc: Global, asked: Asked<'a>) -> Option<Called<'a>> {
    match asked {
        Asked::Session(settings) => Some(Called {
            domain: settings.domain,
            script: Some(settings.script),
            other: None,
            members: settings.members,
        }),
        Asked::Check { domain } => Some(Called {
            domain,
            script: None,
            other: None,
            members: Vec::new(alloc),
        }),
        Asked::Validate {
            domain,
            script,
            plan,
        } => Some(Called {
            domain,
            script: Some(script),
            other: Some(plan),
            members: Vec::new(alloc),
        }),
        Asked::Plan { domain, script, .. } => Some(Called {
            domain,
            script: Some(script),
            other: None,
            members: Vec::new(alloc),
        }),
        Asked::Replay(settings) => Some(Called {
            domain: settings.domain,
            script: Some(settings.script),
            other: Some(settings.journal),
            members: settings.members,
        }),
        Asked::Edit { .. } | Asked::Generate { .. } => None,
    }
}
