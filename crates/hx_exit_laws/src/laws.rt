ghost use Rattle.hx_exit_laws.specs.Ends.{AsksAboutTheLowestLost, CloseBringsAllBack, ClosesWhereALifeLosesNothing};

use hx_disk::Disk;

/// At the end of a life an exit closes exactly where it is a hot one and the completed backup of each dirty copy is of its last
/// version, or no copy is dirty; and it asks about a copy exactly where that is the lowest whose changes it would lose.
pub fn what_comes_of_a_lifes_exit()
    ensures closes { ClosesWhereALifeLosesNothing }
    ensures asks { AsksAboutTheLowestLost }
{}

/// Where an exit closed at the end of a life that wasn't guarded, on a disk that tells its content, whatever a crash leaves from
/// the life's last entry to its end has, of each dirty copy of which the vault held no second pair, the backup of its last
/// version and no other.
pub fn what_comes_back_after_a_close<D: Disk>(_disk: &D)
    ensures { CloseBringsAllBack D.picked D.tells }
{}
