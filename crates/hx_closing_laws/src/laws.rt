ghost use Rattle.hx_closing_laws.specs.Nearer.{FewAreLeft, SaveBringsNearer, VaultBringsNearer};

/// Each stage of a resource that the Closer does, a save stage before a vault stage, leaves fewer of them, and there are few from
/// the start.
pub fn each_stage_brings_the_end_nearer()
    ensures save { SaveBringsNearer }
    ensures vault { VaultBringsNearer }
    ensures few { FewAreLeft }
{}
