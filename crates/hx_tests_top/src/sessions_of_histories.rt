//! Sessions of a local history, worked by hand: the words behind `$`, the script's lines behind `>`, and behind `<` what is to be printed.
//!
//! The opening of an empty vault is the calls 1 to 256. A save of a short content is six, from the closing of its side to the sync of its
//! gate: the first one's are the calls 257 to 262.

pub const HISTORIES: &str = "\
$ history
> hotexit history 1
> saved 0 =a
> saved 9999 =b
> saved 19999 =c
> saved 29998 =d
< kept 1
< merged 1
< kept 2
< merged 2
< entry 1 9999 =b
< entry 2 29998 =d
$ history
> hotexit history 1
> [1..52] saved #0000 =x
> crash 1
< [1..52] kept #
< crashed
< [2..52] entry # #0000 =x
$ --fail 263 history
> hotexit history 1
> saved 0 =a
> crash 1
> saved 20000 =b
< kept 1
< crashed
< kept 2
< entry 1 0 =a
< entry 2 20000 =b
$ history
> hotexit history 1
$ history
> hotexit history 1
> saved 9 =a
> saved 9 =b%20
> saved 8 =
> saved 18446744073709551615 =c
< kept 1
< merged 1
< kept 2
< kept 3
< entry 1 9 =b%20
< entry 2 8 =
< entry 3 18446744073709551615 =c
$ history
> hotexit history 1
> saved 0 =x*524288
> saved 20000 =x*524289
> saved 30000 =y
< kept 1
< toolarge
< kept 2
< entry 1 0 =x*524288
< entry 2 30000 =y
$ --fail 257 history
> hotexit history 1
> saved 0 =a
> saved 5 =b
< fault out
< kept 1
< entry 1 5 =b
$ --fail 262 history
> hotexit history 1
> saved 0 =a
> saved 5 =b
< fault in
< merged 1
< entry 1 5 =b
$ --fail 263 history
> hotexit history 1
> saved 0 =a
> saved 0 =a
< kept 1
< fault in
< entry 1 0 =a
$ --fail 263 history
> hotexit history 1
> saved 0 =a
> saved 1 =a
< kept 1
< fault out
< entry 1 0 =a
$ --fuse 100 history
> hotexit history 1
> saved 0 =a
! 7 the vault could not be opened
$ --fuse 260 history
> hotexit history 1
> saved 0 =a
! 7 the vault could not be opened
$ history
! 3 line 1: header
$ history
> hotexit 1
! 3 line 1: header
$ history
> hotexit history 1
> saved 0 =a
> hotexit history 1
! 3 line 3: form
$ history
> hotexit history 1
> restart
! 3 line 2: form
$ history
> hotexit history 1
> saved 0 =a more
! 3 line 2: form
$ history
> hotexit history 1
> saved x a
! 3 line 2: number
$ history
> hotexit history 1
> saved 0 a
! 3 line 2: escape
$ history
> hotexit history 1
> crash 01
! 3 line 2: number
$ history
> hotexit history 1
> [0..32] crash #
! 3 line 33: toomany
$ history
> hotexit history 1
> [0..9999] saved 0 =
> saved x =
! 3 line 10001: toomany
$ history more
! 2 usage: hotexit [--fail N]... [--fuse N] [--store DIR] replay, run [--workers N], restore, check or made N
";
