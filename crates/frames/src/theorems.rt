// Theorems on frames. To call one is to know it.
ghost use Rattle.frames.specs.Theorems.{RulesDetermine, FillingAdmitted, FillingKept, RulesMakeRuns, RunsFollow};

use values::Kind;

pub fn rules_determine<K: Kind>()
    ensures { RulesDetermine K.algebra }
{}

pub fn bits_make_runs()
    ensures runs { RulesMakeRuns }
    ensures back { RunsFollow }
{}

pub fn filling_admitted<K: Kind>()
    ensures admitted { FillingAdmitted K.algebra }
    ensures kept { FillingKept K.algebra }
{}
