//! Sessions worked by hand in guarded lives, where a save waits until its version is backed up: the words behind `$`, the
//! script's lines behind `>`, and behind `<` what is to be printed. A line of an entry has a tab in it.

pub const GUARDS: &str = "\
$ replay --guarded
> hotexit 1
> file file:///a
> w0 create file:///a
> w0 edit file:///a 0 0 =a
> w0 save file:///a
> s0 flush file:///a
> s0 flush file:///a
> b0 vault file:///a
> b0 vault file:///a
> b0 vault file:///a
> s0 flush file:///a
> b0 vault file:///a
> b0 vault file:///a
< hotexit trace 1
< life 1
< name file:///a
< w0 create file:///a\tcreated 1
< w0 edit file:///a 0 0 =a\tedited 2
< w0 save file:///a\tstarted 2
< s0 flush file:///a\tcheck none
< s0 flush file:///a\tidle
< b0 vault file:///a\tprepare 2 ok
< b0 vault file:///a\tbody 2 ok
< b0 vault file:///a\topen 2 ok
< s0 flush file:///a\tsaved 2 5000 1
< b0 vault file:///a\tfade ok
< b0 vault file:///a\tdrop ok
< q quit\tquit
< end script
< copy file:///a version 2 clean backup none
< ticket 3 saved 2
$ --fail 258 replay --guarded
> hotexit 1
> file file:///a
> w0 create file:///a
> w0 edit file:///a 0 0 =a
> w0 save file:///a
> s0 flush file:///a
> b0 vault file:///a
> s0 flush file:///a
< hotexit trace 1
< life 1
< name file:///a
< w0 create file:///a\tcreated 1
< w0 edit file:///a 0 0 =a\tedited 2
< w0 save file:///a\tstarted 2
< s0 flush file:///a\tcheck none
< b0 vault file:///a\tprepare 2 fault
< s0 flush file:///a\tunguarded 2
< q quit\tvetoed file:///a
< end script
< copy file:///a version 2 dirty backup none
< ticket 3 unguarded
$ --fuse 264 replay --guarded
> hotexit 1
> file file:///a
> w0 create file:///a
> w0 edit file:///a 0 0 =a
> w0 save file:///a
> s0 flush file:///a
> s0 flush file:///a
> b0 vault file:///a
> b0 vault file:///a
> b0 vault file:///a
> s0 flush file:///a
> crash 2
< hotexit trace 1
< life 1
< name file:///a
< w0 create file:///a\tcreated 1
< w0 edit file:///a 0 0 =a\tedited 2
< w0 save file:///a\tstarted 2
< s0 flush file:///a\tcheck none
< s0 flush file:///a\tidle
< b0 vault file:///a\tprepare 2 ok
< b0 vault file:///a\tbody 2 ok
< b0 vault file:///a\topen 2 ok
< s0 flush file:///a\twrite 2 fault
< end crash 2
< copy file:///a version 2 dirty backup 2
< ticket 3 fault
< life 2
< name file:///a
< pair 0 restored file:///a none =a
< q quit\tquit
< end script
< copy file:///a version 1 dirty backup 1
";
