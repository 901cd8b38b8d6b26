//! How the program ends, worked by hand: what it prints, its exit status and its line on standard error.

pub const ENDS: &str = "\
$ replay x
> hotexit 1
! 2 usage: hotexit [--fail N]... [--fuse N] [--store DIR] replay, run [--workers N], restore, check or made N
$ replay --guarded --guarded
> hotexit 1
! 2 usage: hotexit [--fail N]... [--fuse N] [--store DIR] replay, run [--workers N], restore, check or made N
$ --guarded replay
> hotexit 1
! 2 usage: hotexit [--fail N]... [--fuse N] [--store DIR] replay, run [--workers N], restore, check or made N
$ restore --guarded
> hotexit 1
! 2 usage: hotexit [--fail N]... [--fuse N] [--store DIR] replay, run [--workers N], restore, check or made N
$ made --guarded
> hotexit 1
! 2 usage: hotexit [--fail N]... [--fuse N] [--store DIR] replay, run [--workers N], restore, check or made N
$ made 1 --guarded
> hotexit 1
! 2 usage: hotexit [--fail N]... [--fuse N] [--store DIR] replay, run [--workers N], restore, check or made N
$ --fail 0 replay
> hotexit 1
! 2 usage: hotexit [--fail N]... [--fuse N] [--store DIR] replay, run [--workers N], restore, check or made N
$ --fuse 1 --fuse 1 replay
> hotexit 1
! 2 usage: hotexit [--fail N]... [--fuse N] [--store DIR] replay, run [--workers N], restore, check or made N
$ --fail 01 replay
> hotexit 1
! 2 usage: hotexit [--fail N]... [--fuse N] [--store DIR] replay, run [--workers N], restore, check or made N
$ made 0
> hotexit 1
! 2 usage: hotexit [--fail N]... [--fuse N] [--store DIR] replay, run [--workers N], restore, check or made N
$ made 1001
> hotexit 1
! 2 usage: hotexit [--fail N]... [--fuse N] [--store DIR] replay, run [--workers N], restore, check or made N
$ made 01
> hotexit 1
! 2 usage: hotexit [--fail N]... [--fuse N] [--store DIR] replay, run [--workers N], restore, check or made N
$ run --workers
> hotexit 1
! 2 usage: hotexit [--fail N]... [--fuse N] [--store DIR] replay, run [--workers N], restore, check or made N
$ run --workers 2 --guarded
> hotexit 1
! 2 usage: hotexit [--fail N]... [--fuse N] [--store DIR] replay, run [--workers N], restore, check or made N
$ run --guarded --workers
> hotexit 1
! 2 usage: hotexit [--fail N]... [--fuse N] [--store DIR] replay, run [--workers N], restore, check or made N
$ run --guarded --workers 5
> hotexit 1
! 2 usage: hotexit [--fail N]... [--fuse N] [--store DIR] replay, run [--workers N], restore, check or made N
$ run --guarded --guarded
> hotexit 1
! 2 usage: hotexit [--fail N]... [--fuse N] [--store DIR] replay, run [--workers N], restore, check or made N
$ run --workers 0
> hotexit 1
! 2 usage: hotexit [--fail N]... [--fuse N] [--store DIR] replay, run [--workers N], restore, check or made N
$ run --workers 5
> hotexit 1
! 2 usage: hotexit [--fail N]... [--fuse N] [--store DIR] replay, run [--workers N], restore, check or made N
$ run --workers 02
> hotexit 1
! 2 usage: hotexit [--fail N]... [--fuse N] [--store DIR] replay, run [--workers N], restore, check or made N
$ run --fail 300
> hotexit 1
! 2 usage: hotexit [--fail N]... [--fuse N] [--store DIR] replay, run [--workers N], restore, check or made N
$ --store
> hotexit 1
! 2 usage: hotexit [--fail N]... [--fuse N] [--store DIR] replay, run [--workers N], restore, check or made N
$ --store d
> hotexit 1
! 2 usage: hotexit [--fail N]... [--fuse N] [--store DIR] replay, run [--workers N], restore, check or made N
$ --store d --fail 1 replay
> hotexit 1
! 2 usage: hotexit [--fail N]... [--fuse N] [--store DIR] replay, run [--workers N], restore, check or made N
$ --store d --fuse 1 replay
> hotexit 1
! 2 usage: hotexit [--fail N]... [--fuse N] [--store DIR] replay, run [--workers N], restore, check or made N
$ --fail 1 --store d replay
> hotexit 1
! 2 usage: hotexit [--fail N]... [--fuse N] [--store DIR] replay, run [--workers N], restore, check or made N
$ --store d --store d replay
> hotexit 1
! 2 usage: hotexit [--fail N]... [--fuse N] [--store DIR] replay, run [--workers N], restore, check or made N
$ --store  replay
> hotexit 1
! 2 usage: hotexit [--fail N]... [--fuse N] [--store DIR] replay, run [--workers N], restore, check or made N
$ --store d made
> hotexit 1
! 2 usage: hotexit [--fail N]... [--fuse N] [--store DIR] replay, run [--workers N], restore, check or made N
$ exit
> hotexit 1
! 2 usage: hotexit [--fail N]... [--fuse N] [--store DIR] replay, run [--workers N], restore, check or made N
$ exit off
> hotexit 1
! 2 usage: hotexit [--fail N]... [--fuse N] [--store DIR] replay, run [--workers N], restore, check or made N
$ exit on quit
> hotexit 1
! 2 usage: hotexit [--fail N]... [--fuse N] [--store DIR] replay, run [--workers N], restore, check or made N
$ exit onexit quit
> hotexit 1
! 2 usage: hotexit [--fail N]... [--fuse N] [--store DIR] replay, run [--workers N], restore, check or made N
$ exit off leave
> hotexit 1
! 2 usage: hotexit [--fail N]... [--fuse N] [--store DIR] replay, run [--workers N], restore, check or made N
$ exit off quit mac last
> hotexit 1
! 2 usage: hotexit [--fail N]... [--fuse N] [--store DIR] replay, run [--workers N], restore, check or made N
$ exit off quit last last
> hotexit 1
! 2 usage: hotexit [--fail N]... [--fuse N] [--store DIR] replay, run [--workers N], restore, check or made N
$ exit off quit last folder mac x
> hotexit 1
! 2 usage: hotexit [--fail N]... [--fuse N] [--store DIR] replay, run [--workers N], restore, check or made N
$ play
> hotexit 1
! 2 usage: hotexit [--fail N]... [--fuse N] [--store DIR] replay, run [--workers N], restore, check or made N
$ --fail 1 replay
> hotexit 1
! 7 the vault could not be opened
$ --fail 256 replay
> hotexit 1
! 7 the vault could not be opened
$ --fail 1 replay --guarded
> hotexit 1
! 7 the vault could not be opened
$ --fail 256 restore
> hotexit 1
! 7 the vault could not be opened
$ --fail 256 run
> hotexit 1
! 7 the vault could not be opened
$ --fail 256 run --guarded
> hotexit 1
! 7 the vault could not be opened
$ --fail 256 made 1
! 7 the vault could not be opened
$ --fail 1 check
> hotexit trace 1
> life 1
> q quit\tquit
> end script
< legal
$ --fail 263 replay
> hotexit 1
> file file:///a
> w0 create file:///a
> w0 edit file:///a 0 0 =hello
> b0 vault file:///a
> b0 vault file:///a
> b0 vault file:///a
> restart
! 7 the vault could not be opened
$ replay
! 3 line 1: header
$ replay
> hotexit 2
! 3 line 1: header
$ replay
> hotexit 1
> file file:///a
> w0 edit file:///a 0 0 =%G1
! 3 line 3: escape
$ replay
> hotexit 1
> w0 create file:///a
! 3 line 2: resource
$ replay
> hotexit 1
> file file:///a
> file file:///a
! 3 line 3: declared
$ replay
> hotexit 1
> slot 128 =
! 3 line 2: number
$ replay
> hotexit 1
> what
! 3 line 2: form
$ replay
> hotexit 1
> [0..193] file file:///#
! 3 line 194: toomany
$ replay
> =x*4194304
! 3 line 0: toolong
$ restore
> hotexit 1
> file file:///a
> w0 create file:///a
! 3 line 3: place
$ run
> hotexit 1
> file file:///a
> b0 vault file:///a
! 3 line 3: place
$ run --workers 4
> hotexit 1
> restart
! 3 line 2: place
$ check
> hotexit trace 2
! 3 line 1: header
$ restore
> hotexit 1
$ made 1
< made 1
< entries 27
< edits 3
< backups 3
< drops 0
< saved 0
< modified 0
< idle 5
< faults 0
< restored 3
< dirty 3
$ run
> hotexit 1
> file file:///a
> w0 create file:///a
> w0 close file:///a
< hotexit trace 1
< life 1
< name file:///a
< w0 create file:///a\tcreated 1
< w0 close file:///a\tclosed
< q quit\tquit
< end script
$ check
> hotexit trace 1
> life 1
> name file:///a
> w0 create file:///a\tcreated 2
> q quit\tquit
> end script
< not at 4
$ replay
> hotexit 1
> file file:///a
> w0 outside file:///a 1 =x*524288
> w0 open file:///a
> w0 edit file:///a 524288 0 =
> w0 edit file:///a 0 0 =y
> w0 edit file:///a 0 1 =y
> w0 edit file:///a 1 18446744073709551615 =
< hotexit trace 1
< life 1
< name file:///a
< w0 outside file:///a 1 =x*524288\twritten
< w0 open file:///a\topened 1 524288
< w0 edit file:///a 524288 0 =\tedited 2
< w0 edit file:///a 0 0 =y\ttoolarge
< w0 edit file:///a 0 1 =y\tedited 3
< w0 edit file:///a 1 18446744073709551615 =\toutofcontent
< q vault file:///a\tprepare 3 ok
< [0..128] q vault file:///a\tbody 3 ok
< q vault file:///a\topen 3 ok
< q quit\tquit
< end script
< copy file:///a version 3 dirty backup 3
$ replay
> hotexit 1
> [0..65] file file:///#
> [0..65] w0 create file:///#
> w0 close file:///0
> w0 create file:///64
< hotexit trace 1
< life 1
< [0..65] name file:///#
< [0..64] w0 create file:///#\tcreated 1
< w0 create file:///64\tnopair
< w0 close file:///0\tclosed
< w0 create file:///64\tcreated 1
< q quit\tquit
< end script
< [1..65] copy file:///# version 1 clean backup none
$ --fail 260 replay
> hotexit 1
> file file:///a
> w0 outside file:///a 5000 =one
> w0 open file:///a
< hotexit trace 1
< life 1
< name file:///a
< w0 outside file:///a 5000 =one\tfault
< w0 open file:///a\topened 5000 3
< q quit\tquit
< end script
< copy file:///a version 1 clean backup none
$ --fail 267 replay
> hotexit 1
> file file:///a
> w0 outside file:///a 5000 =one
> w0 open file:///a
> w0 edit file:///a 0 3 =twoo
> w0 save file:///a
> s0 flush file:///a
> s0 flush file:///a
> crash 0
> w0 open file:///a
< hotexit trace 1
< life 1
< name file:///a
< w0 outside file:///a 5000 =one\twritten
< w0 open file:///a\topened 5000 3
< w0 edit file:///a 0 3 =twoo\tedited 2
< w0 save file:///a\tstarted 2
< s0 flush file:///a\tcheck 5000 3
< s0 flush file:///a\twrite 2 fault
< end crash 0
< copy file:///a version 2 dirty backup none
< ticket 4 fault
< life 2
< name file:///a
< w0 open file:///a\topened 4000 4
< q quit\tquit
< end script
< copy file:///a version 1 clean backup none
";
