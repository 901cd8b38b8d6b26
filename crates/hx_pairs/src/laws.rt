ghost use Rattle.hx_pairs.specs.Adopting.{OpeningGivesVault};
ghost use Rattle.hx_pairs.specs.FreePairs.{FreePairIsThere, NoPairIsFree, AdoptedIsBarred};
ghost use Rattle.hx_pairs.specs.Laws.{PairShowsAllowed, PairsAreSafe, BarePairIsQuiet, FreshIsKept, RegistryBegins};

use hx_disk::Disk;

/// Whatever the two sides of a resource's pair can show is allowed, and so is whatever a crash leaves of all pairs.
pub fn what_the_pairs_show_is_allowed()
    ensures pair { PairShowsAllowed }
    ensures pairs { PairsAreSafe }
{}

/// A free pair is there exactly where the rules don't say that none is left; as many pairs are barred as the base has damaged
/// pairs and twins.
pub fn a_free_pair_is_there_where_the_rules_want_one()
    ensures there { FreePairIsThere }
    ensures none { NoPairIsFree }
    ensures barred { AdoptedIsBarred }
{}

/// Both sides of the pair of a resource of which nothing may come back are quiet, which a vault asks of a pair that is
/// given back.
pub fn who_holds_nothing_gives_its_pair_back()
    ensures { BarePairIsQuiet }
{}

/// A vault that was synced, read, restored and adopted keeps the pairs' invariant before the first entry.
pub fn an_opened_vault_keeps_the_pairs()
    ensures opened { OpeningGivesVault }
    ensures kept { FreshIsKept }
{}

/// A registry over an opened vault begins with all that it keeps.
pub fn a_registry_begins_with_an_opened_vault<D: Disk>(_disk: &D)
    ensures { RegistryBegins D.tells D.time D.past D.now D.failures }
{}
