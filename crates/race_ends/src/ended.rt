use tect_ids::ReportLine;

/// A part of a race that a dump ended: the clock at which the dump came, which no stamp of the part exceeds, and the lines of the
/// part's answers, client by client in first-seen order.
#[derive(Drop)]
pub struct EndedPart {
    pub clock: u64,
    pub answers: Vec<ReportLine>,
}
