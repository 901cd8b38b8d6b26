ghost use Rattle.hx_disk_laws.specs.Laws.{RestSettles, WritesTear, CutsTear, SameImages, LeftSplits, LeftStays, StillIsSame, RunGoesOn, RunsJoin, OthersStay, LeftPasses};

use hx_disk::Disk;

/// What a crash may leave of a file: a file at rest has one image. After a write each image is one from before it with
/// the range torn, and after a cut one from before it with what lies behind the new end torn. A new stat changes none.
pub fn image_laws()
    ensures rest { RestSettles }
    ensures write { WritesTear }
    ensures cut { CutsTear }
    ensures stat { SameImages }
{}

/// What a crash in a span of moments might have left: it splits at each moment between, and is the same ever after.
pub fn left_laws()
    ensures splits { LeftSplits }
    ensures stays { LeftStays }
{}

/// How runs of calls go on, on any disk: a call at which the moment stands still has changed nothing. A run goes on by one
/// call more, and two runs in turn are one. A run on one file leaves the others. What held of each file at each moment
/// bounds what a crash might have left.
pub fn run_laws<D: Disk>(_disk: &D)
    ensures still { StillIsSame D.time D.past D.now }
    ensures goes_on { RunGoesOn D.time D.past D.now }
    ensures join { RunsJoin D.time D.past }
    ensures others { OthersStay D.time D.past D.now }
    ensures bounds { LeftPasses D.time D.past }
{}
