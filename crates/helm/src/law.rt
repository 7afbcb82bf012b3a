ghost use Rattle.helm.specs.Runs.{RecordsTheVoyage};

/// On every chart, after a begin that was not refused and any list of steer
/// and hear calls as the turns fall, refused ones included, with one plan and
/// one tally that nothing else changes: what finish gives is the record of the
/// voyage made by the calls that were not refused.
#[tactic(auto, using(crate::proofs::Standing::records_the_voyage))]
pub fn records_are_of_the_voyage_made()
    ensures { RecordsTheVoyage }
{}
