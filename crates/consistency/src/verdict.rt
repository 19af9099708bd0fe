//! What can be said of a graph.
ghost use Rattle.std.specs.Prelude.{◌≡◌};
ghost use Rattle.consistency.specs.Verdicts.{rule_number, verdict_number};

/// The rules that make a graph consistent, by their numbers.
#[derive(Clone, Copy, Debug, PartialEq, Eq)]
pub enum Rule {
    /// sb and rf together have no cycle.
    NoThinAir = 1,
    /// No event a has a hb a, or a hb b with b eco a.
    Coherence = 2,
    /// An update stands in mo directly after its source.
    Atomicity = 3,
    /// psc has no cycle.
    ScOrder = 4,
}

/// That a graph is consistent, or else the first rule that it breaks.
pub type Verdict = Result<(), Rule>;

impl Rule {
    /// Its number, 1 to 4.
    pub fn number(self) -> u8
        ensures { result ≡ rule_number self }
    {
        self as u8
    }
}

/// 0 for consistent, else the number of the broken rule.
pub fn number(verdict: Verdict) -> u8
    ensures { result ≡ verdict_number verdict }
{
    verdict.err().map_or(0, Rule::number)
}
