//! Audits.
use ps_hub::Report;
use ps_world::Seq;

/// What a journal bears out of a list of reports.
#[derive(Drop)]
pub struct Audit {
    /// The reports that are borne out, by performers and then in list order, each with whether it is late: its unit was the next when
    /// its performer stopped, and isn't recorded.
    pub kept: Seq<(bool, Report)>,
    /// How many recorded units no report on time tells of.
    pub missing: u64,
}
