ghost use Rattle.hx_opening_laws.specs.Laws.{FindingsFitALife, OpensARegistry};

use hx_disk::Disk;

/// No content that was found is past the limit, and the names of a life are of resources where the declared ones are.
pub fn what_was_found_fits_a_life()
    ensures { FindingsFitALife }
{}

/// A life that begins over a vault that was just opened, in which each resource holds the pair of its backup, has all that a
/// registry keeps.
pub fn a_vault_that_was_opened_begins_a_registry<D: Disk>(_disk: &D)
    ensures { OpensARegistry D.tells D.time D.past D.now D.failures }
{}
